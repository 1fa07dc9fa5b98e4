// What a refusal of the check is about, in one line of text that names the byte to mend.
#![tactic(auto)]

mod line;
mod numbers;
mod owed;
mod starts;

ghost use Rattle.std.specs.Prelude.{◌≡◌, ◌++◌, ◌≤◌, length, get_or, []};
ghost use Rattle.types.specs.Refusals.{refusal_number};
ghost use Rattle.types.specs.Answers.{refused_at};
ghost use Rattle.acceptance.specs.Verdict.{verdict};
ghost use Rattle.reports.specs.Explanation as spec;
ghost use Rattle.explainer.specs.Room.{HasRoom};

use crate::line::Line;
use crate::numbers::{put_base, put_lengths, put_mark, put_reset};
use crate::starts::put_at_start;
use checker::check;
use places::place::{Marks, Place};
use text::bytes::put_bytes;
use types::refusals::{Refusal, Refused};

// No line has more bytes.
pub const LINE_LIMIT: usize = 81;

// The word of a refusal of the check, which gives none of the others.
fn word_of(why: Refusal) -> &'static [u8]
    ensures { result.now ≡ get_or spec.words (refusal_number why) [] }
{
    match why {
        Refusal::Length => b"length",
        Refusal::Base => b"base",
        Refusal::Reset => b"reset",
        Refusal::Mark => b"mark",
        Refusal::Code => b"code",
        Refusal::CutOff => b"cut off",
        Refusal::Overlap => b"overlap",
        Refusal::Flow => b"flow",
        Refusal::Widths => b"widths",
        Refusal::Return => b"return",
        _ => b"",
    }
}

// The number of a refusal and its word.
#[tactic(auto, unfolding(reports::specs::Explanation::heading))]
fn put_heading(line: &mut Line, why: Refusal)
    requires { HasRoom line.old (spec.heading (refusal_number why)) }
    ensures { line.new ≡ line.old ++ spec.heading (refusal_number why) }
{
    line.push_decimal(u8::from(why) as u64);
    line.push_text(b" ");
    line.push_text(word_of(why));
    line.push_text(b": ");
}

// What is said of a refusal at an offset.
#[tactic(auto, unfolding(reports::specs::Explanation::detail))]
fn put_detail<'a>(
    line: &mut Line,
    image: &'a [u8],
    marks: &'a [u8],
    base: u32,
    reset: u32,
    at: usize,
    why: Refusal,
)
    requires refused { verdict image.now marks.now base reset ≡ refused_at why at }
    requires room { HasRoom line.old (spec.detail image.now marks.now base reset at (refusal_number why)) }
    ensures { line.new ≡ line.old ++ spec.detail image.now marks.now base reset at (refusal_number why) }
{
    match why {
        Refusal::Length => put_lengths(line, image.len(), marks.len()),
        Refusal::Base => put_base(line, base, image.len()),
        Refusal::Reset => put_reset(line, &Marks { bytes: marks, base }, reset),
        Refusal::Mark => put_mark(line, &Marks { bytes: marks, base }, at),
        _ => {
            let marks = Marks { bytes: marks, base };
            put_at_start(line, &Place { image, marks, at }, why);
        }
    }
}

// The line that explains the check's verdict.
#[tactic(auto, using(std::proofs::lemmas::Grind::common_steps), unfolding(reports::specs::Explanation::explanation, reports::specs::Explanation::line_by, reports::specs::Explanation::refused_line))]
fn explanation(image: &[u8], marks: &[u8], base: u32, reset: u32) -> Line
    ensures { result ≡ spec.explanation image.now marks.now base reset }
{
    let mut line = Line::new();
    match check(image, marks, base, reset) {
        Ok(()) => line.push_text(b"accepted\n"),
        Err(Refused { why, offset }) => {
            put_heading(&mut line, why);
            put_detail(&mut line, image, marks, base, reset, offset as usize, why);
            line.push_text(b"\n");
        }
    }
    line
}

// Writes the line that explains the check's verdict at the front of a page, where that has room for it.
#[tactic(auto, unfolding(reports::specs::Explanation::explained, reports::specs::Explanation::page_explained, reports::specs::PrintedPage::page_after))]
pub fn explain(
    image: &[u8],
    marks: &[u8],
    base: u32,
    reset: u32,
    page: &mut [u8],
) -> Result<usize, Refused>
    ensures answer { result ≡ spec.explained image.now marks.now base reset page.old }
    ensures page { page.new ≡ spec.page_explained image.now marks.now base reset page.old }
    ensures short { length (spec.explanation image.now marks.now base reset) ≤ spec.line_limit }
{
    let line = explanation(image, marks, base, reset);
    let text = line.text();
    if page.len() < text.len() {
        return Err(Refused {
            why: Refusal::Page,
            offset: 0,
        });
    }
    put_bytes(page, text);
    Ok(text.len())
}
