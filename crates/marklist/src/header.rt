// The first line of a list: base, length and reset.
ghost use Rattle.std.specs.Prelude.{◌≡◌, ◌++◌, ◌*◌, ◌^◌, ◌≤◌, ◌<◌, length, drop};
ghost use Rattle.text.specs.Digits.{value};
ghost use Rattle.lists.specs.MarkList as spec;

use crate::lines::{LINE_END, NEW_DIGITS, OLD_DIGITS, TAB, digits_by};
use fields::byte_at;
use text::bytes::starts_with;
use text::digits::{digit_count, number, put_field};
use types::addresses::BANK_SIZE;
use types::lists::Header;

const BASE_DIGITS: usize = 6;

const LENGTH_DIGITS: usize = 5;

const LENGTH_LIMIT: u32 = 100_000;

// The places of the base and the length in a first line, and the bytes in it beside the digits of length and reset.
const BASE_PLACE: usize = 2;

const LENGTH_PLACE: usize = 9;

const HEADER_REST: usize = 11;

// How many bytes a first line has.
pub(crate) fn header_size(old: bool, h: Header) -> usize
    ensures { result ≡ length (spec.header_text (spec.digits_by old) h) }
{
    HEADER_REST + digits_by(old) + digit_count(10, LENGTH_DIGITS, h.length)
}

// Writes a first line at the front of a page.
pub(crate) fn put_header(page: &mut [u8], old: bool, h: Header)
    requires { length (spec.header_text (spec.digits_by old) h) ≤ length page.old }
    ensures { page.new
        ≡ spec.header_text (spec.digits_by old) h
        ++ drop (length (spec.header_text (spec.digits_by old) h)) page.old }
{
    let count = digit_count(10, LENGTH_DIGITS, h.length);
    let reset_place = LENGTH_PLACE + count + 1;
    page[0] = b'I';
    page[1] = TAB;
    put_field(&mut page[BASE_PLACE..], 16, BASE_DIGITS, h.base, TAB);
    put_field(&mut page[LENGTH_PLACE..], 10, count, h.length, TAB);
    put_field(
        &mut page[reset_place..],
        16,
        digits_by(old),
        h.reset,
        LINE_END,
    );
}

// How many bytes the length in a first line has: those up to the next tab.
fn length_digits_shown(text: &[u8]) -> usize
    ensures { result ≡ spec.length_digits_shown text.now }
{
    (0..LENGTH_DIGITS)
        .find(|i| byte_at(text, LENGTH_PLACE + *i) == TAB)
        .unwrap_or(LENGTH_DIGITS)
}

// A list is old: its first line ends behind four digits of the reset.
pub(crate) fn is_old(text: &[u8]) -> bool
    ensures { result ≡ spec.is_old text.now }
{
    let count = length_digits_shown(text);
    byte_at(text, LENGTH_PLACE + 1 + OLD_DIGITS + count) == LINE_END
}

// The reset that a text shows at a place, as a 24-bit address: in an old list it lies in the base's bank. It asks for a
// base of six digits, whatever bytes these are, so that the sum fits.
fn reset_at(text: &[u8], at: usize, old: bool, base: u32) -> u32
    requires { (at < 4_294_967_296) × (base < 255 * 16 ^ 6) }
    ensures { result
        ≡ spec.whole_reset old base (value 16 (spec.digits_by old) (drop at text.now)) }
{
    if !old {
        return number(text, at, 16, NEW_DIGITS);
    }
    base / BANK_SIZE * BANK_SIZE + number(text, at, 16, OLD_DIGITS)
}

// What the first line of a text shows.
pub(crate) fn header_shown(text: &[u8]) -> Header
    ensures { result ≡ spec.header_shown text.now }
{
    let count = length_digits_shown(text);
    let base = number(text, BASE_PLACE, 16, BASE_DIGITS);
    let length = number(text, LENGTH_PLACE, 10, count);
    let reset = reset_at(text, LENGTH_PLACE + 1 + count, is_old(text), base);
    Header {
        base,
        length,
        reset,
    }
}

// The first line is in form: a text begins with the first line of what it shows.
pub(crate) fn is_header(text: &[u8], old: bool, h: Header) -> bool
    ensures { result ≡ spec.is_header (spec.digits_by old) h text.now }
{
    if LENGTH_LIMIT <= h.length {
        return false;
    }
    let mut line = [0u8; 22];
    put_header(&mut line, old, h);
    let n = header_size(old, h);
    starts_with(text, &line[..n])
}
