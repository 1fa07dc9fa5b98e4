// What the check, the machine and the lists all ask of an image and its marks.
#![tactic(auto)]

pub mod marks;

ghost use Rattle.std.specs.Prelude.{◌≡◌};
ghost use Rattle.prelude.specs.Choice.{pick};
ghost use Rattle.acceptance.specs.Image.{is_start, is_formed, length_fits, base_fits, mark_at, reset_fits};
ghost use Rattle.types.specs.Refusals.{first_refusal};
ghost use Rattle.acceptance.specs.Verdict.{bad_mark, all_formed, image_tests, marks_tests};

use crate::marks::mark_kind;
use fields::byte_at;
use types::addresses::ADDRESS_LIMIT;
use types::refusals::Refusal;

// The limit of types/specs/Addresses.antt.
pub const IMAGE_LIMIT: usize = 65_536;

// Number 1: an image of 1 to 65,536 bytes, and as many marks.
fn length_fits(image: usize, marks: usize) -> bool
    ensures { result ≡ length_fits image marks }
{
    if image == 0 {
        return false;
    }
    if IMAGE_LIMIT < image {
        return false;
    }
    marks == image
}

// Number 2: a 24-bit base, and an image of n bytes that ends at or below FFFFFF.
fn base_fits(base: u32, n: usize) -> bool
    ensures { result ≡ base_fits base n }
{
    if ADDRESS_LIMIT <= base {
        return false;
    }
    n <= (ADDRESS_LIMIT - base) as usize
}

// One of two numbers. Both are at hand, so that no branch is needed.
fn choose(test: bool, yes: u8, no: u8) -> u8
    ensures { result ≡ pick test yes no }
{
    if test { yes } else { no }
}

// 1 for a mark that is not of the form, else 0: a byte without a start is 00, bit 7 is 0, kind 3 is unused, kind 0 has
// no return widths.
fn malformed(mark: u8) -> u8
    ensures { result ≡ pick (is_formed mark) 0 1 }
{
    let kind = mark_kind(mark);
    let by_kind = choose(
        kind == 0,
        choose(mark / 32 == 0, 0, 1),
        choose(kind == 3, 1, 0),
    );
    let by_bit_7 = choose(mark < 128, by_kind, 1);
    choose(mark % 2 == 1, by_bit_7, choose(mark == 0, 0, 1))
}

// Number 4: the form of a mark.
pub fn is_formed(mark: u8) -> bool
    ensures { result ≡ is_formed mark }
{
    malformed(mark) == 0
}

// An instruction starts at a mark.
pub fn is_start(mark: u8) -> bool
    ensures { result ≡ is_start mark }
{
    mark % 2 == 1
}

// The mark at an address, 0 outside the image.
fn mark_at(marks: &[u8], base: u32, address: u32) -> u8
    ensures { result ≡ mark_at marks.now base address }
{
    if address < base {
        return 0;
    }
    byte_at(marks, (address - base) as usize)
}

// Number 3: at the reset address stands mark 01. Of the marks of the form, which is tested before, that
// alone is 'a start with m=0, x=0, return kind 0': under kind 0 bits 5 and 6 are clear, and bit 7 is 0.
fn reset_fits(marks: &[u8], base: u32, reset: u32) -> bool
    ensures { result ≡ reset_fits marks.now base reset }
{
    mark_at(marks, base, reset) == 1
}

// The lowest mark that is not of the form, or the number of marks.
pub fn bad_mark(marks: &[u8]) -> usize
    ensures { result ≡ bad_mark marks.now }
{
    marks
        .iter()
        .position(|mark| !is_formed(*mark))
        .unwrap_or(marks.len())
}

// Every mark has the form. The fold goes through all of them, without a branch that hangs on a mark.
fn all_formed(marks: &[u8]) -> bool
    ensures { result ≡ all_formed marks.now }
{
    marks.iter().fold(0, |bad, mark| bad | malformed(*mark)) == 0
}

// 1, 2: what every call tests of an image of so many bytes at a base, with so many marks.
pub fn test_image(image: usize, marks: usize, base: u32) -> Result<(), Refusal>
    ensures { result ≡ first_refusal (image_tests image marks base) }
{
    if !length_fits(image, marks) {
        return Err(Refusal::Length);
    }
    if !base_fits(base, image) {
        return Err(Refusal::Base);
    }
    Ok(())
}

// 1, 2, 4, 3: what the check and the writer test. The marks are gone through only where they are as many as they must
// be.
pub fn test_marks(image: usize, marks: &[u8], base: u32, reset: u32) -> Result<(), Refusal>
    ensures { result ≡ first_refusal (marks_tests image marks.now base reset) }
{
    test_image(image, marks.len(), base)?;
    if !all_formed(marks) {
        return Err(Refusal::Mark);
    }
    if !reset_fits(marks, base, reset) {
        return Err(Refusal::Reset);
    }
    Ok(())
}
