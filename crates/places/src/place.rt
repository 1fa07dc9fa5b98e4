// Marks, places and instructions of an image.
ghost use Rattle.std.specs.Prelude.{◌≡◌, ◌+◌, ◌-◌, ◌<◌, ◌≤◌, length, drop, get_or};
ghost use Rattle.acceptance.specs.Image.{mark_at};
ghost use Rattle.decoder.specs.Layout.{Fitting};
ghost use Rattle.types.specs.Addresses.{address_limit};

use decoder::Layout;
use fields::byte_at;
use types::addresses::Address;

// The marks, and the address of the first. They end within the addresses.
#[derive(Clone, Copy)]
pub struct Marks<'a> {
    pub bytes: &'a [u8],
    pub base: u32,
    ghost low: { base + length bytes.now ≤ address_limit },
}

impl Marks<'_> {
    // The mark at an address, 0 outside the image. Below the base the difference wraps, so that one comparison is
    // enough: the marks end before the address limit, and no wrapped place is one of theirs.
    #[tactic(auto, using(crate::proofs::OneComparison::mark_by_place))]
    pub fn mark_at(&self, address: u32) -> u8
        ensures { result ≡ mark_at self.now.bytes.now self.now.base address }
    {
        byte_at(self.bytes, address.wrapping_sub(self.base) as usize)
    }
}

// A place of an image. It has a mark, as each byte of the image has.
#[derive(Clone, Copy)]
pub struct Place<'a> {
    pub image: &'a [u8],
    pub marks: Marks<'a>,
    pub at: usize,
    ghost same: { length marks.bytes.now ≡ length image.now },
    ghost inside: { at < length marks.bytes.now },
}

impl<'a> Place<'a> {
    // The address of the place.
    pub fn address(&self) -> Address
        ensures { result ≡ self.now.marks.base + self.now.at }
    {
        Address::new(self.marks.base + self.at as u32)
    }

    // The mark at the place.
    pub fn mark(&self) -> u8
        ensures { result ≡ get_or self.now.marks.bytes.now self.now.at 0 }
    {
        self.marks.bytes[self.at]
    }

    // The bytes of the image from the place on.
    pub fn bytes(&self) -> &[u8]
        ensures { result.now ≡ drop self.now.at self.now.image.now }
    {
        &self.image[self.at..]
    }
}

// An instruction of an image: its place, and its layout, which fits there.
#[derive(Clone, Copy)]
pub struct InstructionAt<'a> {
    pub place: Place<'a>,
    pub layout: Layout,
    ghost fits: { Fitting (length place.image.now - place.at) layout },
}
