// Routine lists: lines of starts without a first line.
ghost use Rattle.std.specs.Prelude.{◌≡◌};
ghost use Rattle.lists.specs.Routines as spec;

use crate::lines::{OLD_DIGITS, TAB, digits_by, line_size, mark_shown};
use fields::byte_at;
use text::digits::number;

// A list is old: its first line goes on with a tab behind four digits.
pub fn has_old_lines(text: &[u8]) -> bool
    ensures { result ≡ spec.has_old_lines text.now }
{
    byte_at(text, OLD_DIGITS) == TAB
}

// 14: a text is a routine list. The definition goes through all addresses of so many digits; this goes from line to
// line, each at an address above that of the line before.
pub fn is_routine_list(text: &[u8]) -> bool
    ensures { result ≡ spec.is_routine_list text.now }
{
    let old = has_old_lines(text);
    let count = digits_by(old);
    let mut rest = text;
    let mut next = 0;
    while !rest.is_empty() {
        let address = number(rest, 0, 16, count);
        if address < next {
            return false;
        }
        let size = line_size(old, mark_shown(rest, old, address));
        if size == 0 {
            return false;
        }
        rest = &rest[size..];
        next = address + 1;
    }
    true
}
