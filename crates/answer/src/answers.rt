// The answer for the bytes of two files.
ghost use Rattle.std.specs.Prelude.{◌≡◌, All, length};
ghost use Rattle.answer.specs.AnswerLine as spec;

use image::IMAGE_LIMIT;
use marklist::reader::read_list;
use types::refusals::{Refusal, Refused};
use view::View;

// The most bytes of a list file.
pub const LIST_LIMIT: usize = 61_440;

// Why an image is not accepted: a file is not read; or the check refuses, or the reader of the list.
#[derive(Clone, Copy)]
pub enum NotAccepted {
    Unread,
    Refused(Refused),
}

// The check's refusal.
impl From<Refused> for NotAccepted {
    ghost use Rattle.answer.specs.declared.answers.NotAccepted.{NotAccepted};

    ghost from_gives = { λ refused answer. answer ≡ NotAccepted.Refused refused };

    fn from(refused: Refused) -> NotAccepted {
        NotAccepted::Refused(refused)
    }
}

// A refusal that is about no offset, as the reader's: 0 stands in its place.
impl From<Refusal> for NotAccepted {
    ghost from_gives = { λ why answer. answer ≡ spec.refused_alone why };

    fn from(why: Refusal) -> NotAccepted {
        NotAccepted::Refused(Refused::from(why))
    }
}

// An image is accepted, with its number of starts, or not.
pub type FileAnswer = Result<u32, NotAccepted>;

// An image file and a list file are within their limits.
#[tactic(auto, unfolding(crate::specs::AnswerLine::are_within_limits))]
pub fn are_within_limits(image: &[u8], text: &[u8]) -> bool
    ensures { result ≡ spec.are_within_limits image.now text.now }
{
    text.len() <= LIST_LIMIT && image.len() <= IMAGE_LIMIT
}

// So many zeros. A caller's proof gets their number and not the list: those of a long page are too many to look at.
pub fn zeros<const N: usize>() -> [u8; N]
    ensures size { N ≡ length result }
    ensures zero { All (λ byte. byte ≡ 0) result }
{
    [0; N]
}

// The check's answer on the view of an image, with the number of starts where it accepts.
fn verdict_answer(image: &[u8], marks: &[u8], base: u32, reset: u32) -> FileAnswer
    ensures { result ≡ spec.verdict_answer image.now marks.now base reset }
{
    let view = View { image, marks, base };
    view.check(reset)?;
    Ok(view.count_starts() as u32)
}

// The list is read into marks of the image's length, and the image is checked against them.
fn list_answer(image: &[u8], text: &[u8], marks: &mut [u8]) -> FileAnswer
    requires { length marks.old ≡ length image.now }
    ensures { result ≡ spec.list_answer image.now text.now }
{
    let h = read_list(text, marks)?;
    verdict_answer(image, marks, h.base, h.reset)
}

// The answer for the bytes of an image file and of a list file. Not inlined: its marks are to be off the stack when it
// returns, for a caller that then has marks of its own.
#[inline(never)]
#[tactic(auto, using(crate::proofs::AnswerLaws::over_limits, crate::proofs::AnswerLaws::within_limits, crate::proofs::AnswerLaws::within_few, std::proofs::lemmas::Grind::common_steps))]
pub fn answer_for(image: &[u8], text: &[u8]) -> FileAnswer
    ensures { result ≡ spec.answer_for image.now text.now }
{
    if !are_within_limits(image, text) {
        return Err(NotAccepted::Unread);
    }
    let mut marks = zeros::<IMAGE_LIMIT>();
    list_answer(image, text, &mut marks[..image.len()])
}
