// What an action works with, by its task's choice, and how bits and flags are wanted.
ghost use Rattle.std.specs.Prelude.{◌≡◌, ◌+◌};
ghost use Rattle.semantics.specs.Addressing.{bits};
ghost use Rattle.prelude.specs.Choice.{pick};
ghost use Rattle.types.specs.Status.{status_of};
ghost use Rattle.actions.specs.ActionEffects as spec;
ghost use Rattle.actions.specs.Tasks.{modification_of};

use crate::operands::Operands;
use cpu::arithmetic::Modification;
use cpu::effects::behind_address;
use cpu::file::{DT, FILE_SIZE, PS};
use cpu::flags::{with_flags_cleared, with_flags_set};
use datawidth::{cleared_by, wide};
use types::addresses::BANK_SIZE;
use types::machine::Status;

// Choices from here on are registers.
const REGISTERS: usize = 16;

// The data, or a register.
pub(crate) fn word_of(choice: usize, v: u16, registers: &[u16; FILE_SIZE]) -> u16
    ensures { result ≡ spec.word_of v registers.now choice }
{
    if choice < REGISTERS {
        v
    } else {
        registers[choice % FILE_SIZE]
    }
}

// What is stored or pushed: another value by the choices 1 to 6, else the data or a register.
#[tactic(auto, using(semantics::proofs::Status::status_number, prelude::proofs::Match::no_key))]
pub(crate) fn value_of(choice: usize, i: Operands, registers: &[u16; FILE_SIZE]) -> u64
    ensures { result ≡ spec.value_of i.mode i.short i.operand i.next i.given.value registers.now choice }
{
    let Operands {
        mode,
        short,
        operand,
        next,
        given,
        ..
    } = i;
    match choice {
        1 => operand,
        2 => next as u64 + operand,
        3 => (next / BANK_SIZE) as u64,
        4 => wide(behind_address(mode, short, operand)),
        5 => wide(registers[DT] % 256),
        6 => wide(registers[PS]),
        _ => wide(word_of(choice, given.value, registers)),
    }
}

// How data is modified, by a task's choice. The variants stand in another order than these numbers, as those of `Action`
// do, for the reason that is told there.
#[tactic(auto, using(prelude::proofs::Match::no_key))]
pub(crate) fn modification_of(choice: usize) -> Modification
    ensures { result ≡ modification_of choice }
{
    match choice {
        1 => Modification::ShiftRight,
        2 => Modification::RotateLeft,
        3 => Modification::RotateRight,
        4 => Modification::Increment,
        5 => Modification::Decrement,
        _ => Modification::ShiftLeft,
    }
}

// The flags that are changed: those that the data names, C, I or V.
#[tactic(auto, using(prelude::proofs::Match::no_key))]
pub(crate) fn mask_of(choice: usize, v: u16) -> u16
    ensures { result ≡ spec.mask_of v choice }
{
    match choice {
        1 => Status::C,
        2 => Status::I,
        3 => Status::V,
        _ => v,
    }
}

// A register's number with 1 added or taken away: 65,535 more is 1 less at 16 bits, and at 8.
pub(crate) fn counted(down: bool, v: u16) -> u64
    ensures { result ≡ v + pick down 65_535 1 }
{
    if down {
        v as u64 + 65_535
    } else {
        v as u64 + 1
    }
}

// The status with the flags of a mask as they are wanted.
pub(crate) fn with_flags(wanted: bool, mask: u16, status: u16) -> u16
    ensures { status_of result ≡ spec.with_flags wanted mask (status_of status) }
{
    if wanted {
        with_flags_set(mask, status)
    } else {
        with_flags_cleared(mask, status)
    }
}

// Data with the bits of a mask as they are wanted.
pub(crate) fn with_bits(wanted: bool, short: bool, mask: u16, v: u16) -> u16
    ensures { result ≡ spec.with_bits wanted (bits short) mask v }
{
    if wanted {
        v | mask
    } else {
        cleared_by(short, mask, v)
    }
}

// The bits of a mask that are not as they are wanted.
pub(crate) fn other_bits(wanted: bool, short: bool, mask: u16, v: u16) -> u16
    ensures { result ≡ spec.other_bits wanted (bits short) mask v }
{
    if wanted {
        cleared_by(short, v, mask)
    } else {
        v & mask
    }
}

// Whether a flag is as it is wanted.
pub(crate) fn is_wanted(wanted: bool, flag: bool) -> bool
    ensures { result ≡ spec.is_wanted wanted flag }
{
    wanted == flag
}
