// What the program check says of an image file and a list file: the answer, and the line that shows it.
#![tactic(auto)]

pub mod answers;
pub mod lines;

ghost use Rattle.std.specs.Prelude.{◌≡◌, ◌++◌, ◌≤◌, length, take, drop};
ghost use Rattle.answer.specs.AnswerLine as spec;

use crate::answers::answer_for;
use crate::lines::put_answer;

// Writes the line for the bytes of two files at the front of a page, and returns its length.
pub fn put_answer_line(image: &[u8], text: &[u8], page: &mut [u8]) -> usize
    requires { spec.line_limit ≤ length page.old }
    ensures line { (result ≡ length (spec.answer_line image.now text.now))
        × (page.new
        ≡ spec.answer_line image.now text.now ++ drop result page.old) }
    ensures part { (result ≤ length page.new) × (result ≡ length (take result page.new)) }
{
    put_answer(page, answer_for(image, text))
}
