// Steps one after another, until the asked number is done or one stops.
ghost use Rattle.std.specs.Prelude.{◌≡◌, ◌+◌, ◌/◌, ◌%◌, ◌≤◌, length};
ghost use Rattle.types.specs.Addresses.{address_limit, bank_size, image_limit};
ghost use Rattle.semantics.specs.Memory.{memory};
ghost use Rattle.types.specs.Runs.{step_limit};
ghost use Rattle.execution.specs.Run.{executed};
ghost use Rattle.semantics.specs.Step.{call_limit, place_of};
ghost use Rattle.machine.specs.StepResults.{state, core_at};
ghost use Rattle.runs.specs.Courses.{left_by};

use cpu::file::{FILE_SIZE, file_of, registers_in};
use machine::step::step_in;
use types::addresses::BANK_SIZE;
use types::machine::{CALL_LIMIT, Completion, Core};
use types::runs::Ended;

// How a run ended, and the registers after it.
#[derive(Clone, Copy)]
pub(crate) struct RunResult {
    pub(crate) ended: Ended,
    pub(crate) core: Core,
}

// PG and PC as one number.
fn place_of(core: Core) -> u32
    ensures { (result ≡ place_of core) × (result % bank_size ≡ core.pc) × (result / bank_size % 256 ≡ core.pg) }
{
    core.pg as u32 * BANK_SIZE + core.pc as u32
}

// The core of a place, the number of open calls and a register file.
fn core_of(place: u32, depth: usize, registers: &[u16; FILE_SIZE]) -> Core
    ensures { result ≡ core_at place depth registers.now }
{
    Core {
        registers: registers_in(registers),
        pc: (place % BANK_SIZE) as u16,
        pg: (place / BANK_SIZE % 256) as u8,
        depth,
    }
}

// The steps of a core with its open calls.
pub(crate) fn run_steps(
    image: &[u8],
    base: u32,
    given: Core,
    calls: &mut [u64; CALL_LIMIT],
    ram: &mut [u8],
    asked: u32,
) -> RunResult
    requires { (base + length image.now ≤ address_limit)
        × (length image.now ≤ image_limit) × (given.depth ≤ call_limit) × (asked ≤ step_limit) }
    ensures { left_by result calls.new ram.new
        ≡ executed (memory ram.old image.now base) (state given calls.old) asked }
{
    let mut registers = file_of(given.registers);
    let mut place = place_of(given);
    let mut depth = given.depth;
    let mut made: u32 = 0;
    for steps in 0..asked {
        match step_in(image, base, place, depth, &mut registers, calls, ram) {
            Ok(completed) => {
                place = completed.place;
                depth = completed.depth;
                made = match completed.completion {
                    Completion::Ordinary => made,
                    Completion::Call => made + 1,
                };
            }
            Err(stop) => return RunResult {
                ended: Ended {
                    end: Some(stop),
                    steps,
                    calls: made,
                },
                core: core_of(place, depth, &registers),
            },
        }
    }
    RunResult {
        ended: Ended {
            end: None,
            steps: asked,
            calls: made,
        },
        core: core_of(place, depth, &registers),
    }
}
