// The read-only view of an image: 01, 'Image, marks and base travel together as one read-only view'.
#![tactic(auto)]

ghost use Rattle.std.specs.Prelude.{◌≡◌};
ghost use Rattle.acceptance.specs.Image.{start_count};
ghost use Rattle.acceptance.specs.Verdict.{verdict};
ghost use Rattle.view.specs.Layout.{layout_at};

use decoder::Layout;
use fields::byte_at;
use image::marks::{mark_m, mark_x};
use types::code::Undecoded;
use types::rules::Verdict;

// An image, the marks beside it and its base address. Any lengths and any base: the check judges them.
#[derive(Clone, Copy)]
pub struct View<'i, 'm> {
    pub image: &'i [u8],
    pub marks: &'m [u8],
    pub base: u32,
}

impl<'i, 'm> View<'i, 'm> {
    // The verdict of the check at a reset address.
    pub fn check(self, reset: u32) -> Verdict
        ensures { result ≡ verdict self.entry.image.now self.entry.marks.now self.entry.base reset }
    {
        checker::check(self.image, self.marks, self.base, reset)
    }

    // How many instructions the marks start.
    pub fn count_starts(self) -> usize
        ensures { result ≡ start_count self.entry.marks.now }
    {
        checker::count_starts(self.marks)
    }

    // The layout of what stands at an offset, at the widths marked there.
    pub fn layout_at(self, at: usize) -> Result<Layout, Undecoded>
        ensures { result ≡ layout_at self.entry.image.now self.entry.marks.now at }
    {
        let mark = byte_at(self.marks, at);
        decoder::layout_at(self.image, at, mark_m(mark), mark_x(mark))
    }
}
