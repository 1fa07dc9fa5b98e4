// One step: what is fetched goes by its flow.
ghost use Rattle.std.specs.Prelude.{◌≡◌, ◌+◌, ◌-◌, ◌≤◌, ◌<◌, length, get_or, Ok};
ghost use Rattle.types.specs.Addresses.{address_limit, image_limit};
ghost use Rattle.semantics.specs.Memory.{memory};
ghost use Rattle.semantics.specs.Step as spec;
ghost use Rattle.machine.specs.Fetches.{instruction, is_branch};
ghost use Rattle.machine.specs.StepResults.{state, core_at, left};

use crate::commit::Completed;
use crate::fetch::fetch_at;
use crate::fetched::Fetched;
use crate::flows::{calls_to, jumps, operates};
use crate::returning::returns;
use cpu::file::{FILE_SIZE, PS};
use entries::flow_of;
use memory::reads::Mapped;
use types::addresses::Address;
use types::code::{Flow, Undecoded};
use types::machine::{CALL_LIMIT, Stop};

// Whether an operation may branch: its target is then worked out.
fn is_branch(flow: Flow) -> bool
    ensures { result ≡ is_branch flow }
{
    matches!(flow, Flow::Branch)
}

// The record of the call opened last.
fn last_opened(calls: &[u64; CALL_LIMIT], depth: usize) -> u64
    requires { depth ≤ spec.call_limit }
    ensures { result ≡ get_or calls.now (depth - 1) 0 }
{
    if depth == 0 {
        calls[0]
    } else {
        calls[depth - 1]
    }
}

// The step of an instruction.
fn perform(
    image: &[u8],
    base: u32,
    i: Fetched,
    depth: usize,
    registers: &mut [u16; FILE_SIZE],
    calls: &mut [u64; CALL_LIMIT],
    ram: &mut [u8],
) -> Result<Completed, Stop>
    requires { depth ≤ spec.call_limit }
    ensures { left i.place depth result registers.new calls.new ram.new
        ≡ spec.on_decoded (Ok (instruction i)) (memory ram.old image.now base)
        (state (core_at i.place depth registers.old) calls.old) }
{
    let flow = flow_of(i.number);
    match flow {
        Flow::Next | Flow::Branch => operates(
            image,
            base,
            is_branch(flow),
            i,
            depth,
            registers,
            ram,
        ),
        Flow::Jump => Ok(jumps(i, depth, registers)),
        Flow::Call(kind) => calls_to(image, base, i, kind, depth, registers, calls, ram),
        Flow::Return(kind) => {
            let opened = last_opened(calls, depth);
            returns(
                &Mapped { ram, image, base },
                i,
                opened,
                kind,
                depth,
                registers,
            )
        }
        Flow::Halt => Err(Stop::Halt),
    }
}

// The step of a place, a register file and the open calls. Asks for what a run tests once, an image within its limits
// and at most 24 open calls. Left open are the place's bits above 24 and the upper byte of DT's number: no step hangs
// on them.
pub fn step_in(
    image: &[u8],
    base: u32,
    place: u32,
    depth: usize,
    registers: &mut [u16; FILE_SIZE],
    calls: &mut [u64; CALL_LIMIT],
    ram: &mut [u8],
) -> Result<Completed, Stop>
    requires { (base + length image.now ≤ address_limit) × (length image.now ≤ image_limit)
        × (depth ≤ spec.call_limit) }
    ensures { left place depth result registers.new calls.new ram.new
        ≡ spec.step (memory ram.old image.now base)
        (state (core_at place depth registers.old) calls.old) }
{
    match fetch_at(image, base, Address::wrapped(place), registers[PS]) {
        Ok(i) => perform(image, base, i, depth, registers, calls, ram),
        Err(Undecoded::NotCarried) => Err(Stop::Uncarried),
        Err(Undecoded::CutOff) => Err(Stop::Outside),
    }
}
