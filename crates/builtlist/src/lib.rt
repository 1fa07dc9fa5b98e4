// What the program marks writes for an image file, a base, a reset address and a routine file: the mark list of the
// marks that are worked out, or a line of the program check.
#![tactic(auto)]

ghost use Rattle.std.specs.Prelude.{◌≡◌, ◌++◌, ◌≤◌, length, take, drop};
ghost use Rattle.lists.specs.MarkList.{new_digits, list_text};
ghost use Rattle.builtlist.specs.BuiltList as spec;

use answer::answers::{NotAccepted, are_within_limits, zeros};
use answer::lines::put_answer;
use builder::build_marks;
use image::IMAGE_LIMIT;
use marklist::lines::NEW_DIGITS;
use marklist::writer::write_list;
use text::digits::{number, shows_digits};
use types::refusals::Refused;

// The most bytes of a list that is written: a first line, and a line for each byte of the longest image.
pub const LONGEST_LIST: usize = 22 + 17 * IMAGE_LIMIT;

// The longest list, of zeros.
pub fn longest_list() -> [u8; LONGEST_LIST]
    ensures { spec.longest_list ≡ length result }
{
    zeros()
}

// A word is an address, of six hex digits.
#[tactic(auto, unfolding(crate::specs::BuiltList::is_address))]
fn is_address(word: &[u8]) -> bool
    ensures { result ≡ spec.is_address word.now }
{
    word.len() == NEW_DIGITS && shows_digits(word, 16, NEW_DIGITS, number(word, 0, 16, NEW_DIGITS))
}

// Writes the list of marks that the check accepts, and returns its length. It asks for room too, so the writer refuses
// nothing.
fn put_accepted(marks: &[u8], base: u32, reset: u32, page: &mut [u8]) -> usize
    requires { spec.Accepted marks.now base reset × (spec.longest_list ≤ length page.old) }
    ensures { (result ≡ length (list_text new_digits marks.now base reset))
        × (page.new ≡ list_text new_digits marks.now base reset ++ drop result page.old) }
{
    write_list(marks, base, reset, page).unwrap_or(0)
}

// Works the marks out, and writes their list or the line of a refusal; returns the length.
fn put_list(
    image: &[u8],
    base: u32,
    reset: u32,
    text: &[u8],
    marks: &mut [u8],
    page: &mut [u8],
) -> usize
    requires { (length marks.old ≡ length image.now) × (spec.longest_list ≤ length page.old) }
    ensures { (result ≡ length (spec.list_of image.now base reset text.now))
        × (page.new
        ≡ spec.list_of image.now base reset text.now ++ drop result page.old) }
{
    match build_marks(image, base, reset, text, marks) {
        Err(why) => put_answer(page, Err(NotAccepted::Refused(Refused { why, offset: 0 }))),
        Ok(()) => put_accepted(marks, base, reset, page),
    }
}

// Files within their limits, and words that are addresses.
#[tactic(auto, unfolding(crate::specs::BuiltList::is_taken))]
fn is_taken(image: &[u8], base: &[u8], reset: &[u8], text: &[u8]) -> bool
    ensures { result
        ≡ spec.is_taken image.now base.now reset.now text.now }
{
    are_within_limits(image, text) && is_address(base) && is_address(reset)
}

// Writes the mark list, or the line, at the front of a page, and returns its length. It asks for room for the longest
// list: every list then fits.
#[tactic(auto, using(crate::proofs::Words::taken_few, std::proofs::lemmas::Grind::common_steps))]
pub fn put_built_list(
    image: &[u8],
    base: &[u8],
    reset: &[u8],
    text: &[u8],
    page: &mut [u8],
) -> usize
    requires { spec.longest_list ≤ length page.old }
    ensures text { (result ≡ length (spec.built_list image.now base.now reset.now text.now))
        × (page.new
        ≡ spec.built_list image.now base.now reset.now text.now
        ++ drop result page.old) }
    ensures part { (result ≤ length page.new) × (result ≡ length (take result page.new)) }
{
    if !is_taken(image, base, reset, text) {
        return put_answer(page, Err(NotAccepted::Unread));
    }
    let mut marks = zeros::<IMAGE_LIMIT>();
    put_list(
        image,
        number(base, 0, 16, NEW_DIGITS),
        number(reset, 0, 16, NEW_DIGITS),
        text,
        &mut marks[..image.len()],
        page,
    )
}
