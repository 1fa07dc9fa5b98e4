// The instruction at the place of execution.
ghost use Rattle.std.specs.Prelude.{◌≡◌, List, ℕ, ◌+◌, ◌≤◌, ◌<◌, length, IfOk};
ghost use Rattle.types.specs.declared.machine.Core.{Core};
ghost use Rattle.types.specs.Addresses.{address_limit, image_limit};
ghost use Rattle.semantics.specs.Memory.{memory};
ghost use Rattle.types.specs.Status.{status_of};
ghost use Rattle.semantics.specs.Step as spec;
ghost use Rattle.machine.specs.Fetches.{decoded_as};

use crate::fetched::Fetched;
use cpu::flags::bit_at;
use decoder::{layout_at, operand_at};
use types::addresses::Address;
use types::code::Undecoded;
use types::machine::Status;

// What stands at a place, at the widths of a status. RAM has no part in it.
pub(crate) fn fetch_at(
    image: &[u8],
    base: u32,
    place: Address,
    status: u16,
) -> Result<Fetched, Undecoded>
    requires { (base + length image.now ≤ address_limit) × (length image.now ≤ image_limit) }
    ensures fetched { (ram : List ℕ) (c : Core) → place ≡ spec.place_of c → c.registers.status ≡ status_of status
        → decoded_as result ≡ spec.fetched (memory ram image.now base) c }
    ensures here { IfOk result (λ i. i.place ≡ place) }
{
    let number = place.number();
    if number < base {
        return Err(Undecoded::CutOff);
    }
    let at = (number - base) as usize;
    let m = bit_at(Status::M, status);
    let x = bit_at(Status::X, status);
    let layout = layout_at(image, at, m, x)?;
    Ok(Fetched {
        place: number,
        number: layout.number,
        length: layout.length,
        operand: operand_at(image, at, layout),
    })
}
