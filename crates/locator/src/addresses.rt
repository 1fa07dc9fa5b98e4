// What is asked of the addresses of a list: 16, then 15.
ghost use Rattle.std.specs.Prelude.{◌≡◌, ◌+◌, ◌<◌};
ghost use Rattle.types.specs.Refusals.{first_refusal};
ghost use Rattle.reports.specs.Locate as spec;

use types::refusals::Refusal;

// The limit of reports/specs/Locate.antt.
const ADDRESS_COUNT: usize = 256;

// Each address is above the one before it.
fn is_ascending(addresses: &[u32]) -> bool
    ensures { result ≡ spec.is_ascending addresses.now }
{
    addresses.is_sorted_by(|before, address| *before < *address)
}

// Each address is one of an image of so many bytes. Asks for an end of the image that is a number.
fn all_inside(addresses: &[u32], base: u32, size: u32) -> bool
    requires { base + size < 4_294_967_296 }
    ensures { result ≡ spec.all_inside base size addresses.now }
{
    let end = base + size;
    addresses
        .iter()
        .all(|address| base <= *address && *address < end)
}

// 16: a list of addresses that is not too long, in order, and within the image.
#[tactic(auto, unfolding(reports::specs::Locate::addresses_fit))]
fn addresses_fit(addresses: &[u32], base: u32, size: u32) -> bool
    requires { base + size < 4_294_967_296 }
    ensures { result ≡ spec.addresses_fit base size addresses.now }
{
    addresses.len() <= ADDRESS_COUNT && is_ascending(addresses) && all_inside(addresses, base, size)
}

// 16, 15: what is tested of a list of addresses, for so many places. Asks for an image that the check accepts, whose
// end is a number.
#[tactic(auto, unfolding(types::specs::Refusals::first_refusal))]
pub(crate) fn test_addresses(
    addresses: &[u32],
    base: u32,
    size: usize,
    room: usize,
) -> Result<(), Refusal>
    requires { base + size < 4_294_967_296 }
    ensures { result ≡ first_refusal (spec.locate_tests base size addresses.now room) }
{
    if !addresses_fit(addresses, base, size as u32) {
        return Err(Refusal::Addresses);
    }
    if room < addresses.len() {
        return Err(Refusal::Page);
    }
    Ok(())
}
