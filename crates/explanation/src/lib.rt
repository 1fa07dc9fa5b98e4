// What the command check writes with --explain for an image file and a list file: the line of the program check, and
// behind it the line that explains it.
#![tactic(auto)]

ghost use Rattle.std.specs.Prelude.{◌≡◌, ◌++◌, ◌≤◌, length, take, drop};
ghost use Rattle.types.specs.Addresses.{image_limit};
ghost use Rattle.reports.specs.Explanation.{line_limit};
ghost use Rattle.explanation.specs.Explained as spec;

use answer::answers::{answer_for, are_within_limits, zeros};
use answer::lines::put_answer;
use explainer::{LINE_LIMIT, explain};
use image::IMAGE_LIMIT;
use marklist::reader::read_list;

// The most bytes of both lines: an answer's has up to 14.
pub const TEXT_LIMIT: usize = 14 + LINE_LIMIT;

// Reads the list into marks of the image's length, writes the line that explains the image by them at the front of a
// page, and returns its length. Asks for room for the longest line, so that 15 can't arise.
fn put_explanation(image: &[u8], text: &[u8], marks: &mut [u8], page: &mut [u8]) -> usize
    requires { (length marks.old ≡ length image.now) × (line_limit ≤ length page.old) }
    ensures { (result ≡ length (spec.list_explanation image.now text.now))
        × (page.new
        ≡ spec.list_explanation image.now text.now ++ drop result page.old)
        × (result ≤ line_limit) }
{
    let Ok(h) = read_list(text, marks) else {
        return 0;
    };
    explain(image, marks, h.base, h.reset, page).unwrap_or(0)
}

// The same with marks of its own. Neither this nor `answer_for` is inlined, so that the marks of both, of which one has
// to end before the other begins, are not on the stack at once.
#[inline(never)]
fn put_alone(image: &[u8], text: &[u8], page: &mut [u8]) -> usize
    requires { (length image.now ≤ image_limit) × (line_limit ≤ length page.old) }
    ensures { (result ≡ length (spec.list_explanation image.now text.now))
        × (page.new
        ≡ spec.list_explanation image.now text.now ++ drop result page.old)
        × (result ≤ line_limit) }
{
    let mut marks = zeros::<IMAGE_LIMIT>();
    put_explanation(image, text, &mut marks[..image.len()], page)
}

// Writes the line of the answer for the bytes of two files at the front of a page, and the line that explains it behind
// it where there is one, and returns the length of both. Asks for room for the longest lines.
#[tactic(auto, using(answer::proofs::AnswerLaws::within_few, std::proofs::lemmas::Grind::common_steps))]
pub fn put_explained(image: &[u8], text: &[u8], page: &mut [u8]) -> usize
    requires { spec.text_limit ≤ length page.old }
    ensures text { (result ≡ length (spec.answer_explained image.now text.now))
        × (page.new
        ≡ spec.answer_explained image.now text.now ++ drop result page.old) }
    ensures part { (result ≤ length page.new) × (result ≡ length (take result page.new)) }
{
    let at = put_answer(page, answer_for(image, text));
    if !are_within_limits(image, text) {
        return at;
    }
    at + put_alone(image, text, &mut page[at..])
}
