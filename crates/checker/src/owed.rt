// What a start owes its successors.
ghost use Rattle.std.specs.Prelude.{◌≡◌, ◌+◌, ◌*◌, ◌/◌, ◌%◌};
ghost use Rattle.acceptance.specs.Image.{mark_at};
ghost use Rattle.types.specs.declared.code.Flow.{Flow};
ghost use Rattle.acceptance.specs.Rules as rules;
ghost use Rattle.places.specs.Placed.{instruction_in};

use entries::{effect_of, flow_of, keeps_widths};
use image::marks::{mark_kind, mark_m, mark_of, mark_x, return_m, return_x};
use places::place::{InstructionAt, Marks};
use successors::widths::{m_after, x_after};
use types::addresses::Address;
use types::code::{Flow, Kind, WidthEffect};
use types::rules::{Requirement, Requirements};

// The mark with the widths after an instruction.
#[tactic(auto, unfolding(acceptance::specs::Rules::mark_after))]
fn mark_after(effect: WidthEffect, operand: u64, mark: u8) -> u8
    ensures { result ≡ rules.mark_after effect operand mark }
{
    let m = m_after(effect, mark_m(mark), operand);
    let x = x_after(effect, mark_x(mark), operand);
    mark_of(m, x, mark_kind(mark), return_m(mark), return_x(mark))
}

// The mark where the widths are kept.
fn mark_kept(mark: u8) -> u8
    ensures { result ≡ mark / 2 % 64 * 2 + 1 }
{
    mark / 2 % 64 * 2 + 1
}

// The mark with the widths after an instruction. Most keep them, and their operand need not be read.
#[inline(always)]
#[tactic(auto, using(crate::proofs::Owes::kept_mark))]
fn mark_after_instruction(i: &InstructionAt, mark: u8) -> u8
    ensures { result ≡ rules.mark_after (instruction_in i.now).entry.effect (instruction_in i.now).operand mark }
{
    if keeps_widths(i.layout.number) {
        return mark_kept(mark);
    }
    mark_after(effect_of(i.layout.number), i.operand(), mark)
}

// The mark that must stand at an address.
fn requirement(address: Address, mark: u8) -> Requirement
    ensures { result ≡ rules.requirement address mark }
{
    Requirement {
        address: address.number(),
        mark,
    }
}

// The mark that a call requires at its target.
#[tactic(auto, unfolding(acceptance::specs::Rules::mark_of_routine))]
pub fn mark_of_routine(kind: Kind, mark: u8, there: u8) -> u8
    ensures { result ≡ rules.mark_of_routine kind mark there }
{
    mark_of(
        mark_m(mark),
        mark_x(mark),
        u8::from(kind),
        return_m(there),
        return_x(there),
    )
}

// The mark that a call requires at the address after it.
#[tactic(auto, unfolding(acceptance::specs::Rules::mark_on_return))]
pub fn mark_on_return(mark: u8, there: u8) -> u8
    ensures { result ≡ rules.mark_on_return mark there }
{
    let m = return_m(there);
    let x = return_x(there);
    mark_of(m, x, mark_kind(mark), return_m(mark), return_x(mark))
}

// What a call with a mark owes, by its target and the address after it.
#[inline(always)]
#[tactic(auto, unfolding(acceptance::specs::Rules::owed_by))]
fn owed_by_call(marks: &Marks, kind: Kind, mark: u8, next: Address, to: Address) -> Requirements
    ensures { result ≡ rules.owed_by (Flow.Call kind) mark 0 next to (mark_at marks.now.bytes.now marks.now.base to) }
{
    let there = marks.mark_at(to.number());
    Requirements::Two(
        requirement(to, mark_of_routine(kind, mark, there)),
        requirement(next, mark_on_return(mark, there)),
    )
}

// What an instruction owes. Each flow reads what it needs.
#[inline(always)]
#[tactic(auto, unfolding(acceptance::specs::Rules::owed_at, acceptance::specs::Rules::owed_by))]
pub fn owed_there(i: &InstructionAt) -> Requirements
    ensures { result
        ≡ rules.owed_there i.now.place.marks.bytes.now i.now.place.marks.base i.now.place.at (instruction_in i.now) }
{
    let mark = i.place.mark();
    match flow_of(i.layout.number) {
        Flow::Next => Requirements::One(requirement(i.next(), mark_after_instruction(i, mark))),
        Flow::Branch => {
            let after = mark_after_instruction(i, mark);
            Requirements::Two(requirement(i.next(), after), requirement(i.target(), after))
        }
        Flow::Jump => Requirements::One(requirement(i.target(), mark_after_instruction(i, mark))),
        Flow::Call(kind) => owed_by_call(&i.place.marks, kind, mark, i.next(), i.target()),
        Flow::Return(_) | Flow::Halt => Requirements::Nothing,
    }
}
