// The line that shows an answer. The page is lent, for there is no heap, so that each function returns how many of its
// bytes it wrote.
ghost use Rattle.std.specs.Prelude.{◌≤◌, length};
ghost use Rattle.answer.specs.AnswerLine as spec;

use crate::answers::{FileAnswer, NotAccepted};
use marklist::lines::{LINE_END, TAB};
use text::digits::{digit_count, put_field};

// No number of a line has more digits.
const NUMBER_DIGITS: usize = 5;

// Writes a number and the byte that closes it at the front of a page, and returns their length.
fn put_number(page: &mut [u8], n: u32, close: u8) -> usize
    requires { 6 ≤ length page.old }
    ensures { spec.Put (spec.number_field n close) 6 result page.old page.new }
{
    let count = digit_count(10, NUMBER_DIGITS, n);
    put_field(page, 10, count, n, close);
    count + 1
}

// Writes the letter of an answer and its first number.
fn put_letter(page: &mut [u8], letter: u8, n: u32, close: u8) -> usize
    requires { 8 ≤ length page.old }
    ensures { spec.Put (spec.letter_field letter n close) 8 result page.old page.new }
{
    page[0] = letter;
    page[1] = TAB;
    2 + put_number(&mut page[2..], n, close)
}

// Writes the line of a refusal.
fn put_refused(page: &mut [u8], number: u8, offset: u32) -> usize
    requires { spec.line_limit ≤ length page.old }
    ensures { spec.Put (spec.refused_line number offset) spec.line_limit result page.old
        page.new }
{
    let at = put_letter(page, b'R', number as u32, TAB);
    at + put_number(&mut page[at..], offset, LINE_END)
}

// Writes the line of a file that is not read.
fn put_unread(page: &mut [u8]) -> usize
    requires { 2 ≤ length page.old }
    ensures { spec.Put spec.unread_line 2 result page.old page.new }
{
    page[0] = b'L';
    page[1] = LINE_END;
    2
}

// Writes the line of what is not accepted.
#[tactic(auto, using(crate::proofs::PutLaws::put_within), unfolding(crate::specs::AnswerLine::not_accepted_line))]
fn put_not_accepted(page: &mut [u8], why: NotAccepted) -> usize
    requires { spec.line_limit ≤ length page.old }
    ensures { spec.Put (spec.not_accepted_line why) spec.line_limit result page.old page.new }
{
    match why {
        NotAccepted::Unread => put_unread(page),
        NotAccepted::Refused(refused) => put_refused(page, u8::from(refused.why), refused.offset),
    }
}

// Writes the line of an answer at the front of a page, and returns its length.
#[tactic(auto, using(crate::proofs::PutLaws::put_within), unfolding(crate::specs::AnswerLine::line_for))]
pub fn put_answer(page: &mut [u8], answer: FileAnswer) -> usize
    requires { spec.line_limit ≤ length page.old }
    ensures { spec.Put (spec.line_for answer) spec.line_limit result page.old page.new }
{
    match answer {
        Ok(count) => put_letter(page, b'A', count, LINE_END),
        Err(why) => put_not_accepted(page, why),
    }
}
