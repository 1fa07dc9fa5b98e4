// The state of the machine as bytes, and whether a run takes it and its RAM.
#![tactic(auto)]

ghost use Rattle.std.specs.Prelude.{◌≡◌, ◌≤◌, ◌<◌, length};
ghost use Rattle.execution.specs.Run.{ram_fits, call_fits, calls_fit, state_fits};
ghost use Rattle.semantics.specs.Step.{call_limit};
ghost use Rattle.execution.specs.StateBytes.{state_size, state_of, head_of, state_bytes};
ghost use Rattle.fields.specs.Fields.{joined, field_at};

use fields::{field_at, put_fields, word_of};
use types::addresses::ADDRESS_LIMIT;
use types::machine::{CALL_LIMIT, Core, RECORD_UNIT, Registers, Status};

// The sizes and limits of execution/specs/StateBytes.antt and Run.antt.
const HEAD_SIZE: usize = 20;

const RECORD_SIZE: usize = 8;

pub const STATE_SIZE: usize = HEAD_SIZE + RECORD_SIZE * CALL_LIMIT;

const LEVEL_LIMIT: u8 = 8;

const RAM_LIMIT: usize = 4_096;

// A word of a state's bytes.
fn word_at(bytes: &[u8], at: usize) -> u16
    requires { at < 65_536 }
    ensures { result ≡ field_at at 2 bytes.now }
{
    field_at(bytes, at, 2) as u16
}

// A single byte of them.
fn single_at(bytes: &[u8], at: usize) -> u8
    requires { at < 65_536 }
    ensures { result ≡ field_at at 1 bytes.now }
{
    field_at(bytes, at, 1) as u8
}

// The registers, and how many calls are open.
pub fn core_of(bytes: &[u8]) -> Core
    ensures { result ≡ (state_of bytes.now).core }
{
    let registers = Registers {
        a: word_at(bytes, 0),
        b: word_at(bytes, 2),
        x: word_at(bytes, 4),
        y: word_at(bytes, 6),
        s: word_at(bytes, 8),
        dpr: word_at(bytes, 12),
        dt: single_at(bytes, 17),
        status: Status::from(word_at(bytes, 14)),
    };
    Core {
        registers,
        pc: word_at(bytes, 10),
        pg: single_at(bytes, 16),
        depth: word_at(bytes, 18) as usize,
    }
}

// The records of the open calls.
pub fn calls_of(bytes: &[u8]) -> [u64; CALL_LIMIT]
    ensures { result ≡ (state_of bytes.now).calls }
{
    let mut calls = [0; CALL_LIMIT];
    for (i, call) in calls.iter_mut().enumerate() {
        *call = field_at(bytes, HEAD_SIZE + RECORD_SIZE * i, RECORD_SIZE);
    }
    calls
}

// All but the call records, as words; PG and DT are one.
fn words_of(core: Core) -> [u64; 10]
    ensures { joined 2 result ≡ head_of core }
{
    let r = core.registers;
    let status = r.status;
    [
        r.a as u64,
        r.b as u64,
        r.x as u64,
        r.y as u64,
        r.s as u64,
        core.pc as u64,
        r.dpr as u64,
        u16::from(status) as u64,
        word_of(core.pg, r.dt) as u64,
        core.depth as u64,
    ]
}

// Writes a state. Asks for as many bytes as it has, so that none is tested.
pub fn put_state(bytes: &mut [u8], core: Core, calls: &[u64; CALL_LIMIT])
    requires { length bytes.old ≡ state_size }
    ensures { bytes.new ≡ state_bytes (record { core = core; calls = calls.now }) }
{
    put_fields(bytes, 0, 2, &words_of(core));
    put_fields(bytes, HEAD_SIZE, RECORD_SIZE, calls);
}

// Number 11: RAM of 1 to 4,096 bytes, no more than the base's number.
pub fn ram_fits(n: usize, base: u32) -> bool
    ensures { result ≡ ram_fits n base }
{
    if n == 0 {
        return false;
    }
    if RAM_LIMIT < n {
        return false;
    }
    n as u64 <= base as u64
}

// An open call has kind 1 or 2 and a 24-bit return address.
#[tactic(auto, unfolding(execution::specs::Run::call_fits))]
fn call_fits(entry: u64) -> bool
    ensures { result ≡ call_fits entry }
{
    let kind = entry / RECORD_UNIT % 256;
    let inside = entry % RECORD_UNIT < ADDRESS_LIMIT as u64;
    if kind == 1 {
        return inside;
    }
    if kind == 2 {
        return inside;
    }
    false
}

// All of the first so many records fit.
fn calls_fit(calls: &[u64; CALL_LIMIT], depth: usize) -> bool
    requires { depth ≤ call_limit }
    ensures { result ≡ calls_fit calls.now depth }
{
    calls[..depth].iter().all(|call| call_fits(*call))
}

// Number 12: PS within its eleven bits, at most 24 open calls, and each of them fits.
#[tactic(auto, unfolding(execution::specs::Run::state_fits_within))]
pub fn state_fits(core: Core, calls: &[u64; CALL_LIMIT]) -> bool
    ensures { result ≡ state_fits (record { core = core; calls = calls.now }) }
{
    let registers = core.registers;
    let status = registers.status;
    if LEVEL_LIMIT <= status.level {
        return false;
    }
    if CALL_LIMIT < core.depth {
        return false;
    }
    calls_fit(calls, core.depth)
}
