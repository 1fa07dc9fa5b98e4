// The writer, in six digits: every test, and the length of the list, comes before the first byte that is written.
ghost use Rattle.std.specs.Prelude.{◌≡◌, ◌++◌, ℕ, ◌+◌, ◌≤◌, ◌<◌, length, drop};
ghost use Rattle.lists.specs.MarkList as spec;

use crate::header::{header_size, put_header};
use crate::lines::{first_address, line_size, put_line};
use image::test_marks;
use types::lists::Header;
use types::refusals::Refusal;

// How many bytes the lines of marks have.
fn lines_size(marks: &[u8]) -> usize
    requires { length marks.now ≤ 65_536 }
    ensures { (address : ℕ) → result ≡ length (spec.lines spec.new_digits address marks.now) }
{
    marks.iter().map(|mark| line_size(false, *mark)).sum()
}

// Writes the lines of marks at the front of a page, each into the rest of it.
fn put_lines(page: &mut [u8], address: u32, marks: &[u8])
    requires { (length (spec.lines spec.new_digits address marks.now) ≤ length page.old)
        × (address + length marks.now < 4_294_967_296) }
    ensures { page.new
        ≡ spec.lines spec.new_digits address marks.now
        ++ drop (length (spec.lines spec.new_digits address marks.now)) page.old }
{
    let mut at = 0;
    for (i, mark) in marks.iter().enumerate() {
        at += put_line(&mut page[at..], address + i as u32, *mark);
    }
}

// Writes a list at the front of a page.
pub fn write_list(marks: &[u8], base: u32, reset: u32, page: &mut [u8]) -> Result<usize, Refusal>
    ensures answer { result ≡ spec.write_list marks.now base reset page.old }
    ensures page { page.new ≡ spec.page_written marks.now base reset page.old }
{
    test_marks(marks.len(), marks, base, reset)?;
    let length = marks.len() as u32;
    let h = Header {
        base,
        length,
        reset,
    };
    let first = header_size(false, h);
    let size = first + lines_size(marks);
    if page.len() < size {
        return Err(Refusal::Page);
    }
    put_header(page, false, h);
    put_lines(&mut page[first..], first_address(false, base), marks);
    Ok(size)
}
