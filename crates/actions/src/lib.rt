// What each action does with its data; operations (manual 4.2) that differ in a register or a value alone share one.
// What `as_effect` leaves open of an effect is named in cpu/src/effects.rt.
#![tactic(auto)]

pub mod operands;
pub mod tasks;
mod values;

ghost use Rattle.std.specs.Prelude.{◌%◌, ◌<◌, get_or};
ghost use Rattle.semantics.specs.Addressing.{bits};
ghost use Rattle.anywidth.specs.AnyWidth as width;
ghost use Rattle.semantics.specs.Arithmetic as arithmetic;
ghost use Rattle.prelude.specs.Choice.{pick};
ghost use Rattle.cpu.specs.File.{file_size};
ghost use Rattle.cpu.specs.FileEffects as rows;
ghost use Rattle.cpu.specs.CodeEffects.{Makes};
ghost use Rattle.actions.specs.Tasks.{unpacked_task};
ghost use Rattle.actions.specs.ActionEffects as spec;

use crate::operands::Operands;
use crate::tasks::{Action, action_of, choice_of, destination_of};
use crate::values::{
    counted, is_wanted, mask_of, modification_of, other_bits, value_of, with_bits, with_flags,
    word_of,
};
use cpu::arithmetic::{Combination, combines, compares, loads, modifies, pulls, rotates, swaps};
use cpu::effects::{Effect, behind_address, branches_if, leaves, pushes, puts, stores_to};
use cpu::file::{FILE_SIZE, PS};
use cpu::flags::{flag_at, with_result};
use datawidth::{low, merged, wide};

// A register off the stack, with N and Z.
fn pulls_data(to: usize, short: bool, v: u16, registers: &[u16; FILE_SIZE]) -> Effect
    requires { to < file_size }
    ensures { Makes result registers.now (rows.pulling registers.now to short
        (width.merged (bits short) (get_or registers.now to 0) v)
        (arithmetic.with_result (bits short) v (rows.status registers.now))) }
{
    let value = merged(short, registers[to], wide(v));
    let status = with_result(short, wide(v), registers[PS]);
    pulls(to, short, value, status, registers)
}

// A register off the stack whole, with N and Z or without.
fn pulls_whole(
    flagged: bool,
    to: usize,
    short: bool,
    v: u16,
    registers: &[u16; FILE_SIZE],
) -> Effect
    requires { to < file_size }
    ensures { Makes result registers.now (rows.pulling registers.now to short v
        (pick flagged (arithmetic.with_result (bits short) v (rows.status registers.now))
        (rows.status registers.now))) }
{
    let old = registers[PS];
    let status = if flagged {
        with_result(short, wide(v), old)
    } else {
        old
    };
    pulls(to, short, v, status, registers)
}

// A register counted up or down.
fn counts(down: bool, to: usize, short: bool, registers: &[u16; FILE_SIZE]) -> Effect
    requires { to < file_size }
    ensures { Makes result registers.now (rows.loading registers.now to short
        (spec.counted (bits short) down (get_or registers.now to 0)) (rows.status registers.now)) }
{
    let value = counted(down, registers[to]);
    loads(to, short, value, registers[PS], registers)
}

// A register into an index, with N and Z: at 8 bits 00 goes above the data.
fn transfers(choice: usize, to: usize, short: bool, registers: &[u16; FILE_SIZE]) -> Effect
    requires { to < file_size }
    ensures { Makes result registers.now (rows.transferring registers.now to short
        (get_or registers.now (choice % 8) 0) (rows.status registers.now)) }
{
    let v = wide(registers[choice % FILE_SIZE]);
    puts(to, low(short, v), with_result(short, v, registers[PS]))
}

// What an action does with its data, by its choice and to its register.
#[tactic(auto, unfolding(crate::specs::ActionEffects::by_action))]
fn by_action(
    action: Action,
    choice: usize,
    to: usize,
    i: Operands,
    registers: &[u16; FILE_SIZE],
) -> Effect
    requires { to < file_size }
    ensures { Makes result registers.now (spec.by_action i.mode i.short i.operand i.next i.given registers.now
        action choice to) }
{
    let Operands {
        mode,
        short,
        operand,
        given,
        ..
    } = i;
    let v = given.value;
    let status = registers[PS];
    match action {
        Action::Leave => leaves(status),
        Action::Load => loads(
            to,
            short,
            wide(word_of(choice, v, registers)),
            status,
            registers,
        ),
        Action::Move => puts(to, word_of(choice, v, registers), status),
        Action::Store => stores_to(short, given.address, value_of(choice, i, registers), status),
        Action::Push => pushes(short, value_of(choice, i, registers), registers),
        Action::Pull => pulls_data(to, short, v, registers),
        Action::PullWhole => pulls_whole(choice == 1, to, short, v, registers),
        Action::Add => combines(Combination::Add, to, short, v, registers),
        Action::Subtract => combines(Combination::Subtract, to, short, v, registers),
        Action::And => combines(Combination::And, to, short, v, registers),
        Action::Or => combines(Combination::Or, to, short, v, registers),
        Action::ExclusiveOr => combines(Combination::ExclusiveOr, to, short, v, registers),
        Action::Compare => compares(to, short, v, registers),
        Action::Count => counts(choice == 1, to, short, registers),
        Action::Modify => modifies(modification_of(choice), mode, to, short, given, registers),
        Action::Rotate => rotates(to, short, v, registers),
        Action::Swap => swaps(short, registers),
        Action::ChangeBits => {
            let mask = behind_address(mode, short, operand);
            let changed = with_bits(to == 1, short, mask, v);
            stores_to(short, given.address, wide(changed), status)
        }
        Action::ChangeFlags => leaves(with_flags(to == 1, mask_of(choice, v), status)),
        Action::Branch => branches_if(is_wanted(to == 1, flag_at(choice % 8, status)), status),
        Action::BranchBits => {
            let mask = behind_address(mode, short, operand);
            branches_if(other_bits(to == 1, short, mask, v) == 0, status)
        }
        Action::Transfer => transfers(choice, to, short, registers),
    }
}

// What a task does with its data. The place of execution, the widths and the open calls are not its business.
pub fn effect_by(task: u32, i: Operands, registers: &[u16; FILE_SIZE]) -> Effect
    ensures { Makes result registers.now (spec.effect_by i.mode i.short i.operand i.next i.given registers.now
        (unpacked_task task)) }
{
    by_action(
        action_of(task),
        choice_of(task),
        destination_of(task),
        i,
        registers,
    )
}
