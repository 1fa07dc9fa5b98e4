// What operations do with data and a register of the file, over the width of the data. The place of the register is
// asked to be one of the file's eight, as three bits of a task are, so that no step tests it; it is no enum, for the
// same bits tell other actions whether flags are set. What `as_effect` leaves open of an effect is named in effects.rt.
ghost use Rattle.std.specs.Prelude.{◌≡◌, ◌<◌, ◌≤◌};
ghost use Rattle.semantics.specs.Addressing.{bits, operand_place_of};
ghost use Rattle.types.specs.Status.{status_of};
ghost use Rattle.cpu.specs.File.{file_size};
ghost use Rattle.cpu.specs.FileEffects as rows;
ghost use Rattle.cpu.specs.CodeEffects.{Makes, as_worked};

use crate::effects::{
    Effect, bytes, leaves, operand_place_of, pulled_at, puts, puts_both, stores_to,
};
use crate::file::{A, B, FILE_SIZE, PS, S};
use crate::flags::{is_set, with_carry, with_overflow, with_result};
use datawidth::{
    difference, difference_overflows, half, is_past, low, merged, rotated, size, sum,
    sum_overflows, top_bit, wide,
};
use types::code::Mode;
use types::machine::{Data, OperandPlace, Status};

// A register gets data, and N and Z with it.
pub fn loads(to: usize, short: bool, v: u64, status: u16, registers: &[u16; FILE_SIZE]) -> Effect
    requires { to < file_size }
    ensures { Makes result registers.now (rows.loading registers.now to short v (status_of status)) }
{
    puts(
        to,
        merged(short, registers[to], v),
        with_result(short, v, status),
    )
}

// What an operation works out: data, of any size, and the status.
#[derive(Clone, Copy)]
pub struct Worked {
    pub value: u64,
    pub status: u16,
}

// ADC: the sum, its C and its V.
#[tactic(auto, using(crate::proofs::Steps::flagged))]
fn added(short: bool, a: u16, v: u16, status: u16) -> Worked
    ensures { as_worked result ≡ rows.added (bits short) a v (status_of status) }
{
    let carry = is_set(Status::C, status);
    let value = sum(a, v, carry);
    let carried = with_carry(is_past(short, value), status);
    Worked {
        value,
        status: with_overflow(sum_overflows(short, a, v, carry), carried),
    }
}

// SBC: the difference, its C and its V.
#[tactic(auto, using(crate::proofs::Steps::flagged))]
fn subtracted(short: bool, a: u16, v: u16, status: u16) -> Worked
    ensures { as_worked result ≡ rows.subtracted (bits short) a v (status_of status) }
{
    let carry = is_set(Status::C, status);
    let value = difference(short, a, v, carry);
    let carried = with_carry(is_past(short, value), status);
    Worked {
        value,
        status: with_overflow(difference_overflows(short, a, v, carry), carried),
    }
}

// How ADC, SBC, AND, ORA and EOR combine a register and data.
#[derive(Clone, Copy)]
pub enum Combination {
    Add,
    Subtract,
    And,
    Or,
    ExclusiveOr,
}

fn combined(how: Combination, short: bool, a: u16, v: u16, status: u16) -> Worked
    ensures { as_worked result ≡ rows.combined how (bits short) a v (status_of status) }
{
    match how {
        Combination::Add => added(short, a, v, status),
        Combination::Subtract => subtracted(short, a, v, status),
        Combination::And => Worked {
            value: wide(a & v),
            status,
        },
        Combination::Or => Worked {
            value: wide(a | v),
            status,
        },
        Combination::ExclusiveOr => Worked {
            value: wide(a ^ v),
            status,
        },
    }
}

// How ASL, LSR, ROL, ROR, INC and DEC modify data.
#[derive(Clone, Copy)]
pub enum Modification {
    Decrement,
    Increment,
    RotateLeft,
    RotateRight,
    ShiftLeft,
    ShiftRight,
}

#[tactic(auto, using(crate::proofs::Steps::none_below))]
fn modified(how: Modification, short: bool, v: u64, status: u16) -> Worked
    requires { v ≤ 65_535 }
    ensures { as_worked result ≡ rows.modified how (bits short) v (status_of status) }
{
    match how {
        Modification::Decrement => Worked {
            value: v + size(short) - 1,
            status,
        },
        Modification::Increment => Worked {
            value: v + 1,
            status,
        },
        Modification::RotateLeft => Worked {
            value: 2 * v + u64::from(is_set(Status::C, status)),
            status: with_carry(half(short) <= v, status),
        },
        Modification::RotateRight => Worked {
            value: v / 2 + top_bit(short, is_set(Status::C, status)),
            status: with_carry(v % 2 == 1, status),
        },
        Modification::ShiftLeft => Worked {
            value: 2 * v,
            status: with_carry(half(short) <= v, status),
        },
        Modification::ShiftRight => Worked {
            value: v / 2,
            status: with_carry(v % 2 == 1, status),
        },
    }
}

// A register and data, combined into the register, with N and Z.
pub fn combines(
    how: Combination,
    to: usize,
    short: bool,
    v: u16,
    registers: &[u16; FILE_SIZE],
) -> Effect
    requires { to < file_size }
    ensures { Makes result registers.now (rows.combining registers.now to short how v) }
{
    let a = low(short, wide(registers[to]));
    let done = combined(how, short, a, v, registers[PS]);
    loads(to, short, done.value, done.status, registers)
}

// CMP, CPX, CPY: C, N and Z of the difference.
#[tactic(auto, using(crate::proofs::Steps::through))]
pub fn compares(from: usize, short: bool, v: u16, registers: &[u16; FILE_SIZE]) -> Effect
    requires { from < file_size }
    ensures { Makes result registers.now (rows.comparing registers.now from short v) }
{
    let rest = difference(short, low(short, wide(registers[from])), v, true);
    let carried = with_carry(is_past(short, rest), registers[PS]);
    leaves(with_result(short, rest, carried))
}

// RLA: a register rotated by n bits, and no flag.
pub fn rotates(to: usize, short: bool, n: u16, registers: &[u16; FILE_SIZE]) -> Effect
    requires { to < file_size }
    ensures { Makes result registers.now (rows.rotating registers.now to short n) }
{
    let old = registers[to];
    let turned = rotated(short, low(short, wide(old)), n);
    puts(to, merged(short, old, turned), registers[PS])
}

// XAB: A and B exchanged, with N and Z of the new A.
pub fn swaps(short: bool, registers: &[u16; FILE_SIZE]) -> Effect
    ensures { Makes result registers.now (rows.swapping registers.now short) }
{
    let a = registers[A];
    let b = registers[B];
    let status = with_result(short, wide(b), registers[PS]);
    puts_both(
        A,
        merged(short, a, wide(b)),
        B,
        merged(short, b, wide(a)),
        status,
    )
}

// A register off the stack, and the status.
pub fn pulls(to: usize, short: bool, v: u16, status: u16, registers: &[u16; FILE_SIZE]) -> Effect
    requires { to < file_size }
    ensures { Makes result registers.now (rows.pulling registers.now to short v (status_of status)) }
{
    puts_both(to, v, S, pulled_at(registers[S], bytes(short)), status)
}

// Data, modified where it came from, with N and Z.
pub fn modifies(
    how: Modification,
    mode: Mode,
    to: usize,
    short: bool,
    given: Data,
    registers: &[u16; FILE_SIZE],
) -> Effect
    requires { to < file_size }
    ensures { Makes result registers.now (rows.modifying registers.now to short (operand_place_of mode)
        given.address (rows.modified how (bits short) given.value (rows.status registers.now))) }
{
    let done = modified(how, short, wide(given.value), registers[PS]);
    match operand_place_of(mode) {
        OperandPlace::Memory => stores_to(
            short,
            given.address,
            wide(low(short, done.value)),
            with_result(short, done.value, done.status),
        ),
        OperandPlace::Instruction | OperandPlace::Register => loads(
            to,
            short,
            done.value,
            done.status,
            registers,
        ),
    }
}
