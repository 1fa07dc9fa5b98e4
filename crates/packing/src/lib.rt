// The answers of the C interface as numbers (include/m7700.h). Each function asks that the answer fits its bits, which
// every answer does (proofs where the answers are made: checker, Packing.antt; loader, Answers.antt and Counts.antt).
#![tactic(auto)]

ghost use Rattle.std.specs.Prelude.{◌≡◌};
ghost use Rattle.types.specs.Runs.{end_number};
ghost use Rattle.packing.specs.Packed.{packed_verdict, Fits, packed_read, ReadFits, packed_written, WrittenFits};
ghost use Rattle.packing.specs.Packed.{passed_result, packed_count, CountFits, packed_built, packed_run, RunFits};

use types::lists::Header;
use types::machine::Stop;
use types::refusals::{Refusal, Refused};
use types::rules::Verdict;
use types::runs::Ended;

// The check's answer: the number above the offset, 0 where the image is accepted.
pub fn pack(answer: Verdict) -> u32
    requires { Fits answer }
    ensures { result ≡ packed_verdict answer }
{
    match answer {
        Ok(()) => 0,
        Err(refused) => u8::from(refused.why) as u32 * 65_536 + refused.offset,
    }
}

// The reader's answer: the refusal's number, or base and reset above a byte that is 0.
pub fn pack_read(answer: Result<Header, Refusal>) -> u64
    requires { ReadFits answer }
    ensures { result ≡ packed_read answer }
{
    match answer {
        Err(unread) => u8::from(unread) as u64,
        Ok(h) => h.base as u64 * 256 + h.reset as u64 * 4_294_967_296,
    }
}

// The writer's answer: the refusal's number, or the length above a byte that is 0.
pub fn pack_written(answer: Result<usize, Refusal>) -> u64
    requires { WrittenFits answer }
    ensures { result ≡ packed_written answer }
{
    match answer {
        Err(unwritten) => u8::from(unwritten) as u64,
        Ok(length) => length as u64 * 256,
    }
}

// The check's refusal, as the check packs it, in the form of the functions that pass it on: the number, and above it
// the offset.
pub fn pass_on(refusal: u32) -> u64
    ensures { result ≡ passed_result refusal }
{
    (refusal / 65_536) as u64 + (refusal % 65_536) as u64 * 256
}

// A count, of the printer the length of the rows and of the locator the marks read: the refusal's number with the
// offset above it, or the count above a byte that is 0.
pub fn pack_count(answer: Result<usize, Refused>) -> u64
    requires { CountFits answer }
    ensures { result ≡ packed_count answer }
{
    match answer {
        Err(refused) => u8::from(refused.why) as u64 + refused.offset as u64 * 256,
        Ok(count) => count as u64 * 256,
    }
}

// The answer of the builder of marks: the refusal's number, or 0.
pub fn pack_built(answer: Result<(), Refusal>) -> u64
    ensures { result ≡ packed_built answer }
{
    if let Err(why) = answer {
        return u8::from(why) as u64;
    }
    0
}

// The number of an end: 0, or the stop's.
fn end_number(end: Option<Stop>) -> u8
    ensures { result ≡ end_number end }
{
    match end {
        None => 0,
        Some(stop) => u8::from(stop),
    }
}

// A run's answer: the refusal's number; or the end, the steps and the calls, each in its bits.
pub fn pack_run(answer: Result<Ended, Refusal>) -> u64
    requires { RunFits answer }
    ensures { result ≡ packed_run answer }
{
    match answer {
        Err(why) => u8::from(why) as u64,
        Ok(run) => {
            256 * end_number(run.end) as u64
                + 65_536 * run.steps as u64
                + 1_099_511_627_776 * run.calls as u64
        }
    }
}
