// The reader: the whole text is judged before a mark is stored.
ghost use Rattle.std.specs.Prelude.{◌≡◌, true, not, ◌||◌, ◌+◌, ◌%◌, ◌≤◌, ◌<◌, leb, length, drop};
ghost use Rattle.types.specs.Addresses.{bank_size, image_limit};
ghost use Rattle.acceptance.specs.Image.{reset_fits};
ghost use Rattle.types.specs.Refusals.{first_refusal};
ghost use Rattle.lists.specs.MarkList as spec;

use crate::header::{header_shown, header_size, is_header, is_old};
use crate::lines::{first_address, line_size, mark_shown};
use image::test_image;
use types::addresses::BANK_SIZE;
use types::lists::Header;
use types::refusals::Refusal;

// Where a text goes on behind its lines from a place on, for so many addresses in turn.
fn lines_end(text: &[u8], at: usize, old: bool, address: u32, count: u32) -> usize
    requires { (at ≤ length text.now) × (address + count < 4_294_967_296) }
    ensures { (result ≤ length text.now)
        × (drop result text.now
        ≡ spec.lines_left (spec.digits_by old) address count (drop at text.now)) }
{
    let mut place = at;
    for i in 0..count {
        place += line_size(old, mark_shown(&text[place..], old, address + i));
    }
    place
}

// Number 14: a text is the list that its first line begins.
fn is_list(text: &[u8], old: bool, h: Header) -> bool
    ensures { result ≡ spec.is_list (spec.digits_by old) h text.now }
{
    if !is_header(text, old, h) {
        return false;
    }
    lines_end(
        text,
        header_size(old, h),
        old,
        first_address(old, h.base),
        h.length,
    ) == text.len()
}

// Number 2 of a list, beside that of its image: an old one's image fits one bank. It asks for an image within the
// limit, so that the sum fits.
fn bank_fits(old: bool, base: u32, n: usize) -> bool
    requires { n ≤ image_limit }
    ensures { result ≡ (not old || leb (base % bank_size + n) bank_size) }
{
    if !old {
        return true;
    }
    (base % BANK_SIZE) as usize + n <= BANK_SIZE as usize
}

// 1, 2: what is tested of a list, of marks or of routines, beside an image of so many bytes at a base, for so many
// marks.
pub fn test_beside_image(old: bool, image: usize, marks: usize, base: u32) -> Result<(), Refusal>
    ensures { result ≡ first_refusal (spec.list_tests old image marks base) }
{
    test_image(image, marks, base)?;
    if !bank_fits(old, base, image) {
        return Err(Refusal::Base);
    }
    Ok(())
}

// Number 3: among the marks that a list shows stands the required start at its reset address.
fn reset_shown(text: &[u8], old: bool, h: Header) -> bool
    requires { spec.is_list (spec.digits_by old) h text.now ≡ true }
    ensures { result ≡ reset_fits (spec.marks_of (spec.digits_by old) h text.now) h.base h.reset }
{
    if h.reset < h.base {
        return false;
    }
    let before = h.reset - h.base;
    if h.length <= before {
        return false;
    }
    let first = first_address(old, h.base);
    let place = lines_end(text, header_size(old, h), old, first, before);
    mark_shown(&text[place..], old, first + before) == 1
}

// Fills marks with those that the lines of a text from a place on show, 00 where they show none; returns where the text
// goes on behind its lines.
pub fn fill_marks(text: &[u8], at: usize, old: bool, address: u32, marks: &mut [u8]) -> usize
    requires { (at ≤ length text.now) × (address + length marks.old < 4_294_967_296) }
    ensures { (marks.new
        ≡ spec.marks_shown (spec.digits_by old) address (length marks.old) (drop at text.now))
        × (result ≤ length text.now)
        × (drop result text.now
        ≡ spec.lines_left (spec.digits_by old) address (length marks.old) (drop at text.now)) }
{
    let mut place = at;
    for (i, mark) in marks.iter_mut().enumerate() {
        *mark = mark_shown(&text[place..], old, address + i as u32);
        place += line_size(old, *mark);
    }
    place
}

// 14, 1, 2, 3: what is tested of a text that shows a first line, for so many marks.
fn test_list(text: &[u8], old: bool, h: Header, marks: usize) -> Result<(), Refusal>
    ensures { result ≡ first_refusal (spec.read_tests old h text.now marks) }
{
    if !is_list(text, old, h) {
        return Err(Refusal::List);
    }
    test_beside_image(old, h.length as usize, marks, h.base)?;
    if !reset_shown(text, old, h) {
        return Err(Refusal::Reset);
    }
    Ok(())
}

// Reads a list: its first line, and its marks into the lent ones.
pub fn read_list(text: &[u8], marks: &mut [u8]) -> Result<Header, Refusal>
    ensures answer { result ≡ spec.read_list text.now marks.old }
    ensures marks { marks.new ≡ spec.marks_read text.now marks.old }
{
    let old = is_old(text);
    let h = header_shown(text);
    test_list(text, old, h, marks.len())?;
    fill_marks(
        text,
        header_size(old, h),
        old,
        first_address(old, h.base),
        marks,
    );
    Ok(h)
}
