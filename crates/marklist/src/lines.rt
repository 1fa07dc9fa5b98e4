// The line of a start: its address, in six digits or, in an old list, four, and the fields of its mark.
ghost use Rattle.std.specs.Prelude.{◌≡◌, ◌++◌, ◌^◌, ◌≤◌, ◌<◌, length, drop};
ghost use Rattle.types.specs.Addresses.{address_limit};
ghost use Rattle.lists.specs.MarkList as spec;

use fields::byte_at;
use image::marks::{mark_kind, mark_m, mark_of, mark_x, return_m, return_x};
use image::{is_formed, is_start};
use text::bytes::{put_bytes, starts_with};
use text::digits::{digit, put_digits, shows_digits};
use types::addresses::{ADDRESS_LIMIT, BANK_SIZE};

// Fields are parted by tabs, each line is closed by a line end.
pub const TAB: u8 = b'\t';

pub const LINE_END: u8 = b'\n';

pub const NEW_DIGITS: usize = 6;

pub(crate) const OLD_DIGITS: usize = 4;

const FIELDS_SIZE: usize = 11;

// How many digits the addresses of a list have.
pub fn digits_by(old: bool) -> usize
    ensures { result ≡ spec.digits_by old }
{
    if old { OLD_DIGITS } else { NEW_DIGITS }
}

// How many addresses so many digits tell apart.
fn span_by(old: bool) -> u32
    ensures { (result ≡ 16 ^ spec.digits_by old) × (0 < result) × (result ≤ address_limit) }
{
    if old { BANK_SIZE } else { ADDRESS_LIMIT }
}

// The first of the addresses of a list, as far as its digits show it.
pub fn first_address(old: bool, base: u32) -> u32
    ensures { (result ≡ spec.first_address (spec.digits_by old) base) × (result < address_limit) }
{
    base % span_by(old)
}

// N, S or L for the kinds 0, 1, 2.
pub fn kind_letter(kind: u8) -> u8
    ensures { result ≡ spec.kind_letter kind }
{
    if kind == 0 {
        return b'N';
    }
    if kind == 1 { b'S' } else { b'L' }
}

// The fields of a mark, with the tab before each and the line's end.
pub fn fields(mark: u8) -> [u8; 11]
    ensures { result ≡ spec.fields mark }
{
    let m = digit(mark_m(mark));
    let x = digit(mark_x(mark));
    let kind = kind_letter(mark_kind(mark));
    let rm = digit(return_m(mark));
    let rx = digit(return_x(mark));
    [TAB, m, TAB, x, TAB, kind, TAB, rm, TAB, rx, LINE_END]
}

// How many bytes the line of a mark has.
pub fn line_size(old: bool, mark: u8) -> usize
    ensures { result ≡ spec.line_size (spec.digits_by old) mark }
{
    if is_start(mark) {
        digits_by(old) + FIELDS_SIZE
    } else {
        0
    }
}

// Writes the line of a mark at the front of a page, in six digits, nothing for no start, and returns its length. It
// asks for room, so that no byte is left out.
pub fn put_line(page: &mut [u8], address: u32, mark: u8) -> usize
    requires { spec.line_size spec.new_digits mark ≤ length page.old }
    ensures { (result ≡ spec.line_size spec.new_digits mark)
        × (page.new ≡ spec.line_of spec.new_digits address mark ++ drop result page.old) }
{
    if !is_start(mark) {
        return 0;
    }
    put_digits(page, 16, NEW_DIGITS, address);
    put_bytes(&mut page[NEW_DIGITS..], &fields(mark));
    NEW_DIGITS + FIELDS_SIZE
}

// What a field of a width shows.
fn bit_shown(byte: u8) -> u8
    ensures { (result ≡ spec.bit_shown byte) × (result ≤ 1) }
{
    if byte == b'0' { 0 } else { 1 }
}

// What the field of a kind shows.
fn kind_shown(byte: u8) -> u8
    ensures { (result ≡ spec.kind_shown byte) × (result ≤ 2) }
{
    if byte == b'N' {
        return 0;
    }
    if byte == b'S' { 1 } else { 2 }
}

// The mark that fields show.
fn fields_mark(text: &[u8]) -> u8
    ensures { result ≡ spec.fields_mark text.now }
{
    let m = bit_shown(byte_at(text, 1));
    let x = bit_shown(byte_at(text, 3));
    let kind = kind_shown(byte_at(text, 5));
    let rm = bit_shown(byte_at(text, 7));
    let rx = bit_shown(byte_at(text, 9));
    mark_of(m, x, kind, rm, rx)
}

// The mark that a text shows for an address: that of the line it begins with, 0 where that is no line of this address.
// The address of a line is the number of its first digits.
pub fn mark_shown(text: &[u8], old: bool, address: u32) -> u8
    ensures { result ≡ spec.mark_shown (spec.digits_by old) address text.now }
{
    if span_by(old) <= address {
        return 0;
    }
    let count = digits_by(old);
    if !shows_digits(text, 16, count, address) {
        return 0;
    }
    let rest = &text[count..];
    let mark = fields_mark(rest);
    if !starts_with(rest, &fields(mark)) {
        return 0;
    }
    if is_formed(mark) { mark } else { 0 }
}
