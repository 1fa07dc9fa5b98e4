// What a return does: the pulls, then whether it goes astray.
ghost use Rattle.std.specs.Prelude.{◌≡◌, List, ℕ, ◌<◌};
ghost use Rattle.cpu.specs.File.{registers_of};
ghost use Rattle.memory.specs.Reads.{read_of};
ghost use Rattle.types.specs.declared.code.Flow.{Flow};
ghost use Rattle.semantics.specs.Memory.{Memory, memory, evaluate};
ghost use Rattle.semantics.specs.Step as spec;
ghost use Rattle.machine.specs.Fetches.{instruction};
ghost use Rattle.machine.specs.StepResults.{core_at, left, finished};

use crate::commit::{Completed, put};
use crate::fetched::Fetched;
use crate::flows::return_bytes;
use cpu::effects::{pulled_at, puts};
use cpu::file::{FILE_SIZE, PS, S};
use memory::reads::Mapped;
use successors::in_bank_after;
use types::addresses::Address;
use types::code::Kind;
use types::machine::{Completion, RECORD_UNIT, Stop};

// The return address that an instruction pulls.
fn pulls_return(mapped: &Mapped, i: Fetched, s: u16, kind: Kind) -> Option<Address>
    ensures { (depth : ℕ) (file : List ℕ) → s ≡ (registers_of file).s → result
        ≡ read_of
        (evaluate (memory mapped.now.ram.now mapped.now.image.now mapped.now.base)
        (spec.pulls_return (core_at i.place depth file) (instruction i) kind)) }
{
    let first = pulled_at(s, 1) as u64;
    let second = pulled_at(s, 2) as u64;
    let third = pulled_at(s, 3) as u64;
    match kind {
        Kind::ByRts => {
            let address = mapped.word_from(first, second)?;
            Some(in_bank_after(i.address(), i.length, address))
        }
        Kind::ByRtl => {
            let number = mapped.long_from(first, second, third)?;
            Some(Address::new(number))
        }
    }
}

// A return to an address, if the call opened last is of its kind and returns there.
#[tactic(auto, using(crate::proofs::Calling::stops_none_open))]
fn returns_to(
    i: Fetched,
    opened: u64,
    kind: Kind,
    address: Address,
    depth: usize,
    registers: &mut [u16; FILE_SIZE],
) -> Result<Completed, Stop>
    ensures { (m : Memory) (calls : List ℕ) → left i.place depth result registers.new calls m.ram
        ≡ finished
        (spec.returns_to (core_at i.place depth registers.old) (instruction i) opened kind address)
        i m i.place depth registers.old calls }
{
    if depth == 0 {
        return Err(Stop::Astray);
    }
    if opened / RECORD_UNIT % 256 != u8::from(kind) as u64 {
        return Err(Stop::Astray);
    }
    if opened % RECORD_UNIT != address.number() as u64 {
        return Err(Stop::Astray);
    }
    let s = pulled_at(registers[S], return_bytes(kind));
    let status = registers[PS];
    put(registers, i, puts(S, s, status));
    Ok(Completed {
        completion: Completion::Ordinary,
        place: address.number(),
        depth: depth - 1,
    })
}

// A return.
pub(crate) fn returns(
    mapped: &Mapped,
    i: Fetched,
    opened: u64,
    kind: Kind,
    depth: usize,
    registers: &mut [u16; FILE_SIZE],
) -> Result<Completed, Stop>
    ensures { (calls : List ℕ) → left i.place depth result registers.new calls mapped.now.ram.now
        ≡ finished
        (spec.plan_by (core_at i.place depth registers.old) (instruction i)
        (memory mapped.now.ram.now mapped.now.image.now mapped.now.base) opened (Flow.Return kind))
        i (memory mapped.now.ram.now mapped.now.image.now mapped.now.base) i.place depth registers.old calls }
{
    let pulled = pulls_return(mapped, i, registers[S], kind);
    returns_to(
        i,
        opened,
        kind,
        pulled.ok_or(Stop::Unmapped)?,
        depth,
        registers,
    )
}
