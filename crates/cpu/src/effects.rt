// What an operation leaves: registers of the file, the status, bytes to be stored, and whether it branches.
ghost use Rattle.std.specs.Prelude.{◌≡◌, ◌+◌, ◌-◌, ◌%◌, false};
ghost use Rattle.memory.specs.Listed.{listed};
ghost use Rattle.memory.specs.declared.stores.Stores.{Stores};
ghost use Rattle.semantics.specs.Addressing as addressing;
ghost use Rattle.semantics.specs.Effects as spec;
ghost use Rattle.types.specs.Addresses.{bank_size};
ghost use Rattle.cpu.specs.File.{registers_of};
ghost use Rattle.cpu.specs.CodeEffects.{code_effect, Makes};

use crate::file::{FILE_SIZE, PS, S};
use datawidth::{low, wide};
use memory::stores::Stores;
use std::num::{wrapping_add_u16, wrapping_sub_u16};
use types::code::Mode;
use types::machine::{OperandPlace, Store};

// Two registers at most get a value, and then the status gets its own: a register that is not to change is named by the
// status' place. Promises by `as_effect` (specs/CodeEffects.antt) settle what the registers then are, the stores and
// the branch. Left open are which register is named first, the value for the status' place and the upper byte of
// DT's: who puts an effect into the file (`machine::commit::put`) comes to the same registers.
#[derive(Clone, Copy)]
pub struct Effect {
    pub first: usize,
    pub value: u16,
    pub second: usize,
    pub other: u16,
    pub status: u16,
    pub stores: Stores,
    pub taken: bool,
}

// A byte to be stored: the low one of a number.
pub fn store(address: u64, v: u64) -> Store
    ensures { result ≡ spec.store address v }
{
    Store {
        address,
        byte: (v % 256) as u8,
    }
}

// Data into memory, the low byte first.
fn stores_of(short: bool, address: u32, v: u64) -> Stores
    ensures { listed result ≡ spec.stores_of short address v }
{
    if short {
        return Stores::One(store(address as u64, v));
    }
    Stores::Two(store(address as u64, v), store(address as u64 + 1, v / 256))
}

// Where a byte goes after n were pushed.
pub fn pushed_at(s: u16, n: u16) -> u16
    ensures { result ≡ (s + (bank_size - n)) % bank_size }
{
    wrapping_sub_u16(s, n)
}

// S after n bytes were pulled.
pub fn pulled_at(s: u16, n: u16) -> u16
    ensures { result ≡ (s + n) % bank_size }
{
    wrapping_add_u16(s, n)
}

// Data onto the stack, the high byte first.
fn push_of(short: bool, v: u64, registers: &[u16; FILE_SIZE]) -> Stores
    ensures { listed result ≡ spec.push_of short v (registers_of registers.now) }
{
    let s = registers[S];
    if short {
        return Stores::One(store(wide(s), v));
    }
    let second = pushed_at(s, 1) as u64;
    Stores::Two(store(wide(s), v / 256), store(second, v))
}

// How many bytes data has.
pub(crate) fn bytes(short: bool) -> u16
    ensures { result ≡ spec.bytes short }
{
    if short { 1 } else { 2 }
}

// Two registers and the status.
pub(crate) fn puts_both(first: usize, value: u16, second: usize, other: u16, status: u16) -> Effect
    ensures { result ≡ code_effect first value second other status Stores.None false }
{
    Effect {
        first,
        value,
        second,
        other,
        status,
        stores: Stores::None,
        taken: false,
    }
}

// A register and the status.
pub fn puts(place: usize, value: u16, status: u16) -> Effect
    ensures { result ≡ code_effect place value 7 0 status Stores.None false }
{
    puts_both(place, value, PS, 0, status)
}

// The status alone.
pub fn leaves(status: u16) -> Effect
    ensures { result ≡ code_effect 7 0 7 0 status Stores.None false }
{
    puts(PS, 0, status)
}

// The status, and whether a branch is taken.
pub fn branches_if(taken: bool, status: u16) -> Effect
    ensures { result ≡ code_effect 7 0 7 0 status Stores.None taken }
{
    Effect {
        taken,
        ..leaves(status)
    }
}

// Data into memory, and the status.
pub fn stores_to(short: bool, address: u32, v: u64, status: u16) -> Effect
    ensures { (result ≡ code_effect 7 0 7 0 status result.stores false) ×
        (listed result.stores ≡ spec.stores_of short address v) }
{
    Effect {
        stores: stores_of(short, address, v),
        ..leaves(status)
    }
}

// Data onto the stack, and S below it.
pub fn pushes(short: bool, v: u64, registers: &[u16; FILE_SIZE]) -> Effect
    ensures { Makes result registers.now (spec.pushes short v (registers_of registers.now)) }
{
    Effect {
        stores: push_of(short, v, registers),
        ..puts(S, pushed_at(registers[S], bytes(short)), registers[PS])
    }
}

// Where the data of a mode lies.
pub fn operand_place_of(mode: Mode) -> OperandPlace
    ensures { result ≡ addressing.operand_place_of mode }
{
    match mode {
        Mode::Implied
        | Mode::Accumulator
        | Mode::AbsoluteIndirect
        | Mode::AbsoluteIndirectLong
        | Mode::AbsoluteIndexedXIndirect
        | Mode::Stack
        | Mode::Relative
        | Mode::BlockTransfer => OperandPlace::Register,
        Mode::Immediate => OperandPlace::Instruction,
        Mode::Direct
        | Mode::DirectBit
        | Mode::DirectIndexedX
        | Mode::DirectIndexedY
        | Mode::DirectIndirect
        | Mode::DirectIndexedXIndirect
        | Mode::DirectIndirectIndexedY
        | Mode::DirectIndirectLong
        | Mode::DirectIndirectLongIndexedY
        | Mode::Absolute
        | Mode::AbsoluteBit
        | Mode::AbsoluteIndexedX
        | Mode::AbsoluteIndexedY
        | Mode::AbsoluteLong
        | Mode::AbsoluteLongIndexedX
        | Mode::DirectBitRelative
        | Mode::AbsoluteBitRelative
        | Mode::StackPointerRelative
        | Mode::StackPointerRelativeIndirectIndexedY => OperandPlace::Memory,
    }
}

// How many numbers the address before immediate data can be.
fn address_size(mode: Mode) -> u64
    ensures { result ≡ spec.address_size mode }
{
    match mode {
        Mode::Implied
        | Mode::Immediate
        | Mode::Accumulator
        | Mode::Stack
        | Mode::Relative
        | Mode::StackPointerRelative
        | Mode::StackPointerRelativeIndirectIndexedY
        | Mode::BlockTransfer => 1,
        Mode::Direct
        | Mode::DirectBit
        | Mode::DirectIndexedX
        | Mode::DirectIndexedY
        | Mode::DirectIndirect
        | Mode::DirectIndexedXIndirect
        | Mode::DirectIndirectIndexedY
        | Mode::DirectIndirectLong
        | Mode::DirectIndirectLongIndexedY
        | Mode::DirectBitRelative => 256,
        Mode::Absolute
        | Mode::AbsoluteBit
        | Mode::AbsoluteIndexedX
        | Mode::AbsoluteIndexedY
        | Mode::AbsoluteLong
        | Mode::AbsoluteLongIndexedX
        | Mode::AbsoluteIndirect
        | Mode::AbsoluteIndirectLong
        | Mode::AbsoluteIndexedXIndirect
        | Mode::AbsoluteBitRelative => 65_536,
    }
}

// The immediate data behind an address.
pub fn behind_address(mode: Mode, short: bool, operand: u64) -> u16
    ensures { result ≡ spec.behind_address mode short operand }
{
    low(short, operand / address_size(mode))
}
