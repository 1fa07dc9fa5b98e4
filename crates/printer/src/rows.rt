// The rows of a page: address, bytes, word, widths and kind of each start, in their columns.
ghost use Rattle.std.specs.Prelude.{◌≡◌, ◌++◌, ◌+◌, ◌≤◌, ◌<◌, length, drop};
ghost use Rattle.codepages.specs.Packing.{unpacked};
ghost use Rattle.reports.specs.PrintedPage as spec;

use entries::operations::syntax_word;
use image::is_start;
use image::marks::{mark_kind, mark_m, mark_x};
use marklist::lines::{LINE_END, kind_letter};
use places::place::{Marks, Place};
use text::bytes::put_bytes;
use text::digits::{digit, put_field};
use view::View;

// The bytes of a row, its line end among them.
pub(crate) const ROW_SIZE: usize = 36;

const ADDRESS_DIGITS: usize = 6;

// The places of the bytes, the word and the widths in a row, from 0.
const CELLS_PLACE: usize = 7;

const WORD_PLACE: usize = 25;

const MARK_PLACE: usize = 29;

// How many bytes a row has cells for, and the columns of a cell.
const CELL_COUNT: usize = 6;

const CELL_SIZE: usize = 3;

const BLANK: u8 = b' ';

// A byte's pair and a blank, or three blanks where the bytes have ended.
fn cell(bytes: &[u8], k: usize) -> [u8; 3]
    ensures { result ≡ spec.cell bytes.now k }
{
    match bytes.get(k) {
        Some(byte) => [digit(*byte / 16), digit(*byte % 16), BLANK],
        None => [BLANK; 3],
    }
}

// Writes the cells of an instruction's bytes at the front of a page.
fn put_cells(page: &mut [u8], bytes: &[u8])
    requires { 18 ≤ length page.old }
    ensures { page.new ≡ spec.cells bytes.now ++ drop 18 page.old }
{
    for k in 0..CELL_COUNT {
        put_bytes(&mut page[k * CELL_SIZE..], &cell(bytes, k));
    }
}

// Widths and kind of a mark, a blank before each, and the line's end.
fn mark_columns(mark: u8) -> [u8; 7]
    ensures { result ≡ spec.mark_columns mark }
{
    let m = digit(mark_m(mark));
    let x = digit(mark_x(mark));
    let kind = kind_letter(mark_kind(mark));
    [BLANK, m, BLANK, x, BLANK, kind, LINE_END]
}

// Writes the row of an instruction, whose bytes and entry's number are given, at the front of a page.
fn put_row(page: &mut [u8], address: u32, bytes: &[u8], number: u32, mark: u8)
    requires { spec.row_size ≤ length page.old }
    ensures { page.new
        ≡ spec.row address bytes.now (unpacked number) mark ++ drop spec.row_size page.old }
{
    put_field(page, 16, ADDRESS_DIGITS, address, BLANK);
    put_cells(&mut page[CELLS_PLACE..], bytes);
    put_bytes(&mut page[WORD_PLACE..], &syntax_word(number));
    put_bytes(&mut page[MARK_PLACE..], &mark_columns(mark));
}

// Writes the row of a place, nothing where no instruction starts, and returns its length. The view says what stands
// there at the widths of its mark.
fn put_row_at(page: &mut [u8], place: &Place) -> usize
    requires { length (spec.row_at place.now.image.now place.now.marks.bytes.now place.now.marks.base place.now.at)
        ≤ length page.old }
    ensures { (result ≡ length
        (spec.row_at place.now.image.now place.now.marks.bytes.now place.now.marks.base place.now.at))
        × (page.new
        ≡ spec.row_at place.now.image.now place.now.marks.bytes.now place.now.marks.base place.now.at
        ++ drop result page.old) }
{
    let mark = place.mark();
    if !is_start(mark) {
        return 0;
    }
    let view = View {
        image: place.image,
        marks: place.marks.bytes,
        base: place.marks.base,
    };
    let Ok(layout) = view.layout_at(place.at) else {
        return 0;
    };
    let bytes = &place.bytes()[..layout.length as usize];
    put_row(page, place.address().number(), bytes, layout.number, mark);
    ROW_SIZE
}

// Writes the rows of an image at the front of a page, each into the rest of it.
pub(crate) fn put_rows(page: &mut [u8], image: &[u8], marks: &Marks)
    requires { (length (spec.page_text image.now marks.now.bytes.now marks.now.base) ≤ length page.old)
        × (length marks.now.bytes.now ≡ length image.now) }
    ensures { page.new
        ≡ spec.page_text image.now marks.now.bytes.now marks.now.base
        ++ drop (length (spec.page_text image.now marks.now.bytes.now marks.now.base)) page.old }
{
    let mut written = 0;
    for at in 0..marks.bytes.len() {
        let place = Place {
            image,
            marks: *marks,
            at,
        };
        written += put_row_at(&mut page[written..], &place);
    }
}
