// Where the addresses that a bus probe delivers lie: 02, R-4. One pass over the marks of an accepted image.
#![tactic(auto)]

mod addresses;
mod pass;

ghost use Rattle.std.specs.Prelude.{◌≡◌, ℕ};
ghost use Rattle.acceptance.specs.Verdict.{verdict, IsAccepted};
ghost use Rattle.reports.specs.Locate.{located, places_located};

use crate::addresses::test_addresses;
use crate::pass::pass_marks;
use places::place::Marks;
use types::refusals::Refused;

// The places of addresses, at the front of the lent ones. Every address is tested before the first is written. Asks
// that the check accepted the image, for callers who have its answer.
pub fn locate(
    image: &[u8],
    marks: &[u8],
    base: u32,
    addresses: &[u32],
    places: &mut [u32],
) -> Result<usize, Refused>
    requires { IsAccepted image.now marks.now base }
    ensures { (reset : ℕ) → verdict image.now marks.now base reset ≡ Ok tt
        → (result ≡ located image.now marks.now base reset addresses.now
        places.old)
        × (places.new ≡ places_located image.now marks.now base reset
        addresses.now places.old) }
{
    test_addresses(addresses, base, image.len(), places.len())?;
    let beside = Marks { bytes: marks, base };
    Ok(pass_marks(image, &beside, addresses, places))
}
