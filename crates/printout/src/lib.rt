// What the program print writes for an image file and a list file: the page, or the line of the program check.
#![tactic(auto)]

ghost use Rattle.std.specs.Prelude.{◌≡◌, ◌++◌, ◌≤◌, length, take, drop};
ghost use Rattle.reports.specs.PrintedPage.{page_after};
ghost use Rattle.printout.specs.Printout as spec;

use answer::answers::{LIST_LIMIT, are_within_limits, zeros};
use answer::put_answer_line;
use image::IMAGE_LIMIT;
use marklist::reader::read_list;
use printer::print;
use types::refusals::Refused;

// The most bytes of a page: a row for each line of the longest list file, which have 15 bytes or more.
pub const PAGE_LIMIT: usize = 36 * (LIST_LIMIT / 15);

// The longest page, of zeros.
pub fn longest_page() -> [u8; PAGE_LIMIT]
    ensures { spec.page_limit ≡ length result }
{
    zeros()
}

// Reads the list into marks of the image's length, and prints the image by them.
fn print_by_list(
    image: &[u8],
    text: &[u8],
    marks: &mut [u8],
    page: &mut [u8],
) -> Result<usize, Refused>
    requires { length marks.old ≡ length image.now }
    ensures answer { result ≡ spec.files_printed image.now text.now page.old }
    ensures page { page.new ≡ page_after result (spec.files_page image.now text.now) page.old }
{
    let h = read_list(text, marks)?;
    print(image, marks, h.base, h.reset, page)
}

// Writes the page, or the line, for the bytes of two files at the front of a page, and returns its length. Asks for
// room for the longest page: the rows of every image then fit, and 15 can't arise, for which the program check has no
// line.
#[tactic(auto, using(answer::proofs::AnswerLaws::within_few, std::proofs::lemmas::Grind::common_steps))]
pub fn put_printout(image: &[u8], text: &[u8], page: &mut [u8]) -> usize
    requires { spec.page_limit ≤ length page.old }
    ensures text { (result ≡ length (spec.printout image.now text.now))
        × (page.new
        ≡ spec.printout image.now text.now ++ drop result page.old) }
    ensures part { (result ≤ length page.new) × (result ≡ length (take result page.new)) }
{
    if !are_within_limits(image, text) {
        return put_answer_line(image, text, page);
    }
    let mut marks = zeros::<IMAGE_LIMIT>();
    match print_by_list(image, text, &mut marks[..image.len()], page) {
        Ok(size) => size,
        Err(_) => put_answer_line(image, text, page),
    }
}
