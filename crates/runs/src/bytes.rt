// A run of a state that is given as bytes: any bytes are answered.
ghost use Rattle.std.specs.Prelude.{◌≡◌, ◌&&◌, eqb};
ghost use Rattle.semantics.specs.Memory.{memory};
ghost use Rattle.types.specs.Refusals.{first_refusal};
ghost use Rattle.execution.specs.Run.{state_fits, run_tests};
ghost use Rattle.execution.specs.RunBytes.{ran_bytes};
ghost use Rattle.execution.specs.StateBytes.{state_size};
ghost use Rattle.machine.specs.StepResults.{state};

use crate::steps::run_steps;
use image::test_image;
use statebytes::{STATE_SIZE, calls_of, core_of, put_state, ram_fits, state_fits};
use types::machine::{CALL_LIMIT, Core};
use types::refusals::Refusal;
use types::runs::Ended;

// The limit of types/specs/Runs.antt.
const STEP_LIMIT: u32 = 1_000_000;

// Number 12: so many bytes are a state, and a run takes it.
fn fits(bytes: usize, core: Core, calls: &[u64; CALL_LIMIT]) -> bool
    ensures { result ≡ (eqb bytes state_size && state_fits (state core calls.now)) }
{
    bytes == STATE_SIZE && state_fits(core, calls)
}

// 1, 2, 11, 12, 13: what a run tests.
fn test_run(image: &[u8], base: u32, ram: &[u8], fits: bool, asked: u32) -> Result<(), Refusal>
    ensures { result ≡ first_refusal (run_tests (memory ram.now image.now base) fits asked) }
{
    test_image(image.len(), image.len(), base)?;
    if !ram_fits(ram.len(), base) {
        return Err(Refusal::Ram);
    }
    if !fits {
        return Err(Refusal::State);
    }
    if STEP_LIMIT < asked {
        return Err(Refusal::Steps);
    }
    Ok(())
}

// The run: its answer, and the state and RAM that it leaves.
pub fn run(
    image: &[u8],
    base: u32,
    bytes: &mut [u8],
    ram: &mut [u8],
    asked: u32,
) -> Result<Ended, Refusal>
    ensures answer { result ≡ (ran_bytes (memory ram.old image.now base) bytes.old asked).answer }
    ensures state { bytes.new
        ≡ (ran_bytes (memory ram.old image.now base) bytes.old asked).state }
    ensures ram { ram.new
        ≡ (ran_bytes (memory ram.old image.now base) bytes.old asked).ram }
{
    let core = core_of(bytes);
    let mut calls = calls_of(bytes);
    let taken = fits(bytes.len(), core, &calls);
    test_run(image, base, ram, taken, asked)?;
    let after = run_steps(image, base, core, &mut calls, ram, asked);
    put_state(bytes, after.core, &calls);
    Ok(after.ended)
}
