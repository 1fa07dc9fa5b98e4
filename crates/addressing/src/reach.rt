// The address of an instruction's data by its mode, and the data there.
ghost use Rattle.std.specs.Prelude.{◌≡◌, ◌≤◌, ◌<◌, IfSome, slice_index};
ghost use Rattle.anywidth.specs.AnyWidth as width;
ghost use Rattle.cpu.specs.File.{registers_of, file_size};
ghost use Rattle.semantics.specs.Addressing as spec;
ghost use Rattle.types.specs.Addresses.{address_limit};
ghost use Rattle.memory.specs.Reads.{read_of};
ghost use Rattle.semantics.specs.Memory.{memory, evaluate, read_long};
ghost use Rattle.addressing.specs.Found.{is_address, residence_by, reached_by, found_at};

use cpu::effects::{operand_place_of, pulled_at};
use cpu::file::{DPR, DT, FILE_SIZE, PS, S, X, Y, accumulator_in};
use cpu::flags::is_set;
use datawidth::{low, wide};
use memory::reads::Mapped;
use types::addresses::{BANK_SIZE, low_long, low_word};
use types::code::{Accumulator, Mode};
use types::machine::{Data, OperandPlace, OperandUse, Status};

// A register where an address is wanted.
fn word(v: u16) -> u32
    ensures { (result ≡ v) × (result ≤ 65_535) }
{
    v as u32
}

// X or Y, by its place, as an address takes it: under x=1 its low byte alone. Asks for a place of the file.
fn index(place: usize, registers: &[u16; FILE_SIZE]) -> u32
    requires { place < file_size }
    ensures { (result ≡ width.low (spec.bits (registers_of registers.now).status.x)
        (slice_index registers.now place)) × (result ≤ 65_535) }
{
    low(is_set(Status::X, registers[PS]), wide(registers[place])) as u32
}

// An address of the direct page: DPR and one byte, in bank 0 and on into bank 1.
fn direct(registers: &[u16; FILE_SIZE], operand: u64) -> u32
    ensures { (result ≡ spec.direct (registers_of registers.now) operand) × (result ≤ 65_790) }
{
    word(registers[DPR]) + (operand % 256) as u32
}

// Two bytes behind the code, in the data bank.
fn absolute(registers: &[u16; FILE_SIZE], operand: u64) -> u32
    ensures { (result ≡ spec.absolute (registers_of registers.now) operand) × (result < address_limit) }
{
    (registers[DT] % 256) as u32 * BANK_SIZE + low_word(operand) as u32
}

// S and one byte: a data address, which does not wrap.
fn stack_relative(registers: &[u16; FILE_SIZE], operand: u64) -> u32
    ensures { (result ≡ spec.stack_relative (registers_of registers.now) operand) × (result ≤ 65_790) }
{
    word(registers[S]) + (operand % 256) as u32
}

// The address in the data bank that the word at a place holds.
fn by_word(mapped: &Mapped, registers: &[u16; FILE_SIZE], at: u32) -> Option<u32>
    ensures value { result ≡ read_of (evaluate (memory mapped.now.ram.now mapped.now.image.now mapped.now.base)
        (spec.by_word (registers_of registers.now) at)) }
    ensures bounded { IfSome result (λ address. address < address_limit) }
{
    let pointer = mapped.word_from(at as u64, at as u64 + 1)?;
    Some((registers[DT] % 256) as u32 * BANK_SIZE + pointer as u32)
}

// The address that three bytes at a place hold.
fn by_long(mapped: &Mapped, at: u32) -> Option<u32>
    ensures value { result ≡ read_of (evaluate (memory mapped.now.ram.now mapped.now.image.now mapped.now.base)
        (read_long at)) }
    ensures bounded { IfSome result (λ address. address < address_limit) }
{
    mapped.long_from(at as u64, at as u64 + 1, at as u64 + 2)
}

// The address of the data by mode.
#[tactic(auto, unfolding(semantics::specs::Addressing::address_of))]
fn address_of(
    mapped: &Mapped,
    mode: Mode,
    registers: &[u16; FILE_SIZE],
    operand: u64,
) -> Option<u32>
    ensures { result ≡ read_of (evaluate (memory mapped.now.ram.now mapped.now.image.now mapped.now.base)
        (spec.address_of mode (registers_of registers.now) operand)) }
{
    match mode {
        Mode::Implied
        | Mode::Immediate
        | Mode::Accumulator
        | Mode::AbsoluteIndirect
        | Mode::AbsoluteIndirectLong
        | Mode::AbsoluteIndexedXIndirect
        | Mode::Stack
        | Mode::Relative
        | Mode::BlockTransfer => Some(0),
        Mode::Direct | Mode::DirectBit | Mode::DirectBitRelative => Some(direct(
            registers, operand,
        )),
        Mode::DirectIndexedX => Some(direct(registers, operand) + index(X, registers)),
        Mode::DirectIndexedY => Some(direct(registers, operand) + index(Y, registers)),
        Mode::DirectIndirect => by_word(mapped, registers, direct(registers, operand)),
        Mode::DirectIndexedXIndirect => {
            let at = direct(registers, operand) + index(X, registers);
            by_word(mapped, registers, at)
        }
        Mode::DirectIndirectIndexedY => {
            let at = direct(registers, operand);
            Some(by_word(mapped, registers, at)? + index(Y, registers))
        }
        Mode::DirectIndirectLong => by_long(mapped, direct(registers, operand)),
        Mode::DirectIndirectLongIndexedY => {
            let at = direct(registers, operand);
            Some(by_long(mapped, at)? + index(Y, registers))
        }
        Mode::Absolute | Mode::AbsoluteBit | Mode::AbsoluteBitRelative => Some(absolute(
            registers, operand,
        )),
        Mode::AbsoluteIndexedX => Some(absolute(registers, operand) + index(X, registers)),
        Mode::AbsoluteIndexedY => Some(absolute(registers, operand) + index(Y, registers)),
        Mode::AbsoluteLong => Some(low_long(operand).number()),
        Mode::AbsoluteLongIndexedX => Some(low_long(operand).number() + index(X, registers)),
        Mode::StackPointerRelative => Some(stack_relative(registers, operand)),
        Mode::StackPointerRelativeIndirectIndexedY => {
            let at = stack_relative(registers, operand);
            Some(by_word(mapped, registers, at)? + index(Y, registers))
        }
    }
}

// What a mode names in memory: the address alone, or the data there; both here, so that `address_of` has one call site
// and is inlined (docs/DECISIONS.md, 'The machine's speed').
fn in_memory(
    mapped: &Mapped,
    alone: bool,
    mode: Mode,
    registers: &[u16; FILE_SIZE],
    short: bool,
    operand: u64,
) -> Option<Data>
    ensures { result ≡ read_of (evaluate (memory mapped.now.ram.now mapped.now.image.now mapped.now.base)
        (reached_by alone mode (registers_of registers.now) short operand)) }
{
    let address = address_of(mapped, mode, registers, operand)?;
    if alone {
        return Some(Data { address, value: 0 });
    }
    let value = mapped.data_from(short, address as u64, address as u64 + 1)?;
    Some(Data { address, value })
}

// Where the data of a mode lies, in memory where its address alone is asked.
fn residence_by(alone: bool, mode: Mode) -> OperandPlace
    ensures { result ≡ residence_by alone mode }
{
    if alone {
        OperandPlace::Memory
    } else {
        operand_place_of(mode)
    }
}

// What a mode names: the address alone, or the data.
fn operand_by(
    mapped: &Mapped,
    alone: bool,
    mode: Mode,
    named: Accumulator,
    registers: &[u16; FILE_SIZE],
    short: bool,
    operand: u64,
) -> Option<Data>
    ensures { result ≡ read_of (evaluate (memory mapped.now.ram.now mapped.now.image.now mapped.now.base)
        (found_at (residence_by alone mode) alone mode named (registers_of registers.now) short operand)) }
{
    match residence_by(alone, mode) {
        OperandPlace::Memory => in_memory(mapped, alone, mode, registers, short, operand),
        OperandPlace::Instruction => Some(Data {
            address: 0,
            value: low(short, operand),
        }),
        OperandPlace::Register => Some(Data {
            address: 0,
            value: low(short, accumulator_in(named, registers) as u64),
        }),
    }
}

// Whether the address alone is asked.
fn is_address(access: OperandUse) -> bool
    ensures { result ≡ is_address access }
{
    matches!(access, OperandUse::Address)
}

// What is read before an operation works.
pub fn data_of(
    mapped: &Mapped,
    access: OperandUse,
    mode: Mode,
    named: Accumulator,
    registers: &[u16; FILE_SIZE],
    short: bool,
    operand: u64,
) -> Option<Data>
    ensures { result ≡ read_of (evaluate (memory mapped.now.ram.now mapped.now.image.now mapped.now.base)
        (spec.data_of access mode named (registers_of registers.now) short operand)) }
{
    match access {
        OperandUse::Operand | OperandUse::Addend | OperandUse::Address => operand_by(
            mapped,
            is_address(access),
            mode,
            named,
            registers,
            short,
            operand,
        ),
        OperandUse::Pull => {
            let first = pulled_at(registers[S], 1) as u64;
            let second = pulled_at(registers[S], 2) as u64;
            let value = mapped.data_from(short, first, second)?;
            Some(Data { address: 0, value })
        }
        OperandUse::DirectWord => {
            let page = direct(registers, operand) as u64;
            let value = mapped.word_from(page, page + 1)?;
            Some(Data { address: 0, value })
        }
    }
}
