// A step's end: registers, RAM and the place of execution as its effect has them, or all as before where it stops.
ghost use Rattle.std.specs.Prelude.{◌≡◌, List, ℕ, eqb};
ghost use Rattle.cpu.specs.File.{registers_of};
ghost use Rattle.cpu.specs.CodeEffects.{as_effect, InFile};
ghost use Rattle.memory.specs.Listed.{listed};
ghost use Rattle.types.specs.declared.machine.CallChange.{CallChange};
ghost use Rattle.semantics.specs.Arithmetic.{with_widths};
ghost use Rattle.semantics.specs.Memory.{memory};
ghost use Rattle.instructions.specs.Successors.{m_after, x_after};
ghost use Rattle.types.specs.Status.{mask_m, mask_x, is_set, status_of};
ghost use Rattle.prelude.specs.Choice.{bit};
ghost use Rattle.semantics.specs.Step as spec;
ghost use Rattle.machine.specs.Fetches.{instruction};
ghost use Rattle.machine.specs.StepResults.{left, finished};

use crate::fetched::Fetched;
use cpu::effects::Effect;
use cpu::file::{FILE_SIZE, PS};
use cpu::flags::{bit_at, with_widths};
use entries::{effect_of, keeps_widths};
use memory::reads::Mapped;
use memory::stores::write;
use successors::widths::{m_after, x_after};
use types::addresses::Address;
use types::machine::{Completion, Status, Stop};

// A step that met no stop: whether it was a call, the place of execution after it, and how many calls are open then. A
// step that stops leaves both as they were.
#[derive(Clone, Copy)]
pub struct Completed {
    pub completion: Completion,
    pub place: u32,
    pub depth: usize,
}

// The status that an operation leaves, at the widths after its instruction.
fn settled(i: Fetched, before: u16, after: u16) -> u16
    ensures { status_of result
        ≡ with_widths (eqb (m_after (instruction i).entry.effect (bit (is_set mask_m before)) i.operand) 1)
        (eqb (x_after (instruction i).entry.effect (bit (is_set mask_x before)) i.operand) 1) (status_of after) }
{
    // Most keep the widths, and their effect need not be told apart.
    if keeps_widths(i.number) {
        return with_widths(bit_at(Status::M, before), bit_at(Status::X, before), after);
    }
    let effect = effect_of(i.number);
    let m = m_after(effect, bit_at(Status::M, before), i.operand);
    let x = x_after(effect, bit_at(Status::X, before), i.operand);
    with_widths(m, x, after)
}

// The registers after an instruction.
pub(crate) fn put(registers: &mut [u16; FILE_SIZE], i: Fetched, effect: Effect)
    requires { InFile effect }
    ensures { registers_of registers.new
        ≡ spec.widths_after (instruction i) (registers_of registers.old)
        (as_effect effect (registers_of registers.old)).registers }
{
    let before = registers[PS];
    registers[effect.first] = effect.value;
    registers[effect.second] = effect.other;
    registers[PS] = settled(i, before, effect.status);
}

// An effect that opens and closes no call, if all its stores are served.
pub(crate) fn finish(
    image: &[u8],
    base: u32,
    i: Fetched,
    effect: Effect,
    to: Address,
    depth: usize,
    registers: &mut [u16; FILE_SIZE],
    ram: &mut [u8],
) -> Result<Completed, Stop>
    requires { InFile effect }
    ensures { (calls : List ℕ) → left i.place depth result registers.new calls ram.new
        ≡ finished
        (spec.changes
        (spec.change (as_effect effect (registers_of registers.old)).registers to CallChange.Keep
        (listed effect.stores)))
        i (memory ram.old image.now base) i.place depth registers.old calls }
{
    Mapped { ram, image, base }.served_all(effect.stores)?;
    write(ram, effect.stores);
    put(registers, i, effect);
    Ok(Completed {
        completion: Completion::Ordinary,
        place: to.number(),
        depth,
    })
}
