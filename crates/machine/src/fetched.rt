// What a step fetches.
ghost use Rattle.std.specs.Prelude.{◌≡◌, ◌≤◌, ◌<◌};
ghost use Rattle.types.specs.Addresses.{address_limit};
ghost use Rattle.instructions.specs.Decode.{operand_limit};

use types::addresses::Address;

// An instruction and the place that it stands at, its entry by its number: what a step needs of the entry it takes from
// there. The place stays a number, for the toolchain copies no struct that holds an `Address`.
#[derive(Clone, Copy)]
pub(crate) struct Fetched {
    pub(crate) place: u32,
    pub(crate) number: u32,
    pub(crate) length: u8,
    pub(crate) operand: u64,
    ghost inside: { place < address_limit },
    ghost bounded: { (length ≤ 6) × (operand < operand_limit) },
}

impl Fetched {
    // The place as an address.
    pub(crate) fn address(self) -> Address
        ensures { result ≡ self.place }
    {
        Address::new(self.place)
    }
}
