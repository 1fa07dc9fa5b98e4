// What is said of 1 to 4, which speak of no instruction.
ghost use Rattle.std.specs.Prelude.{◌≡◌, ◌++◌, ◌+◌, ◌<◌, length, get_or};
ghost use Rattle.reports.specs.Explanation as spec;
ghost use Rattle.explainer.specs.Room.{HasRoom};

use crate::line::{ADDRESS_DIGITS, Line};
use image::is_start;
use image::marks::mark_kind;
use places::place::Marks;

// The digits of a base or a reset address, as it is given.
const GIVEN_DIGITS: usize = 8;

// The mark that a reset address requires.
const RESET_MARK: u8 = 1;

// 1: the two lengths.
#[tactic(auto, unfolding(reports::specs::Explanation::length_text))]
pub(crate) fn put_lengths(line: &mut Line, image: usize, marks: usize)
    requires { HasRoom line.old (spec.length_text image marks) }
    ensures { line.new ≡ line.old ++ spec.length_text image marks }
{
    line.push_text(b"image ");
    line.push_decimal(image as u64);
    line.push_text(b", marks ");
    line.push_decimal(marks as u64);
}

// 2: base and length.
#[tactic(auto, unfolding(reports::specs::Explanation::base_text))]
pub(crate) fn put_base(line: &mut Line, base: u32, size: usize)
    requires { HasRoom line.old (spec.base_text base size) }
    ensures { line.new ≡ line.old ++ spec.base_text base size }
{
    line.push_hex(GIVEN_DIGITS, base);
    line.push_text(b", length ");
    line.push_decimal(size as u64);
}

// An address lies in the image.
#[tactic(auto, unfolding(reports::specs::Explanation::is_inside))]
pub(crate) fn is_inside(marks: &Marks, address: u32) -> bool
    ensures { result ≡ spec.is_inside marks.now.bytes.now marks.now.base address }
{
    marks.base <= address && address < marks.base + marks.bytes.len() as u32
}

// Adds what is said of an address where no start stands.
#[tactic(auto, unfolding(reports::specs::Explanation::no_start_text))]
pub(crate) fn put_no_start(line: &mut Line, inside: bool)
    requires { HasRoom line.old (spec.no_start_text inside) }
    ensures { line.new ≡ line.old ++ spec.no_start_text inside }
{
    if inside {
        line.push_text(b"no start");
    } else {
        line.push_text(b"outside the image");
    }
}

// Adds what stands at an address: the fields of a start's mark, or that there is none.
#[tactic(auto, unfolding(reports::specs::Explanation::standing))]
fn put_standing(line: &mut Line, marks: &Marks, address: u32)
    requires { HasRoom line.old (spec.standing marks.now.bytes.now marks.now.base address) }
    ensures { line.new ≡ line.old ++ spec.standing marks.now.bytes.now marks.now.base address }
{
    let mark = marks.mark_at(address);
    if is_start(mark) {
        line.push_fields(false, mark);
    } else {
        put_no_start(line, is_inside(marks, address));
    }
}

// 3: the reset address, the mark that it requires and what stands there.
#[tactic(auto, unfolding(reports::specs::Explanation::reset_text))]
pub(crate) fn put_reset(line: &mut Line, marks: &Marks, reset: u32)
    requires { HasRoom line.old (spec.reset_text marks.now.bytes.now marks.now.base reset) }
    ensures { line.new ≡ line.old ++ spec.reset_text marks.now.bytes.now marks.now.base reset }
{
    line.push_hex(GIVEN_DIGITS, reset);
    line.push_text(b" must be ");
    line.push_fields(false, RESET_MARK);
    line.push_text(b", is ");
    put_standing(line, marks, reset);
}

// Adds which part of a mark is not of the form.
#[tactic(auto, unfolding(reports::specs::Explanation::unformed_part))]
fn put_part(line: &mut Line, mark: u8)
    requires { HasRoom line.old (spec.unformed_part mark) }
    ensures { line.new ≡ line.old ++ spec.unformed_part mark }
{
    if !is_start(mark) {
        line.push_text(b"bits without a start");
    } else if 128 <= mark {
        line.push_text(b"bit 7");
    } else if mark_kind(mark) == 3 {
        line.push_text(b"kind 3");
    } else {
        line.push_text(b"return widths of kind N");
    }
}

// 4: address and mark byte, and which part is not of the form.
#[tactic(auto, unfolding(reports::specs::Explanation::mark_text))]
pub(crate) fn put_mark(line: &mut Line, marks: &Marks, at: usize)
    requires inside { at < length marks.now.bytes.now }
    requires room { HasRoom line.old (spec.mark_text (marks.now.base + at) (get_or marks.now.bytes.now at 0)) }
    ensures { line.new ≡ line.old ++ spec.mark_text (marks.now.base + at) (get_or marks.now.bytes.now at 0) }
{
    let mark = marks.bytes[at];
    line.push_hex(ADDRESS_DIGITS, marks.base + at as u32);
    line.push_text(b" has ");
    line.push_hex(2, mark as u32);
    line.push_text(b": ");
    put_part(line, mark);
}
