// The check: accepted, or the number and the place of the first rule that is broken.
#![tactic(auto)]

pub mod owed;
pub mod start;

ghost use Rattle.std.specs.Prelude.{◌≡◌, ◌+◌, ◌<◌, ◌≤◌, length};
ghost use Rattle.packing.specs.Packed.{packed_verdict};
ghost use Rattle.types.specs.Addresses.{address_limit, bank_size};
ghost use Rattle.acceptance.specs.Image.{start_count};
ghost use Rattle.acceptance.specs.Verdict as spec;

use crate::start::step_at;
use image::{bad_mark, is_start, test_marks};
use packing::pack;
use places::place::{Marks, Place};
use types::refusals::{Refusal, Refused};
use types::rules::Verdict;

// The starts in turn, from the lowest: the first that breaks a rule refuses. Where an instruction breaks none, no
// start stands on its later bytes, and they are stepped over.
fn starts_verdict(image: &[u8], marks: &Marks) -> Verdict
    requires { length marks.now.bytes.now ≡ length image.now }
    ensures { result ≡ spec.starts_verdict image.now marks.now.bytes.now marks.now.base }
{
    // No range counts these places: a step is as long as the instruction that it passes.
    let mut at = 0;
    while at < marks.bytes.len() {
        let place = Place {
            image,
            marks: *marks,
            at,
        };
        match step_at(&place) {
            Ok(bytes) => at += bytes as usize,
            Err(why) => {
                let offset = at as u32;
                return Err(Refused { why, offset });
            }
        }
    }
    Ok(())
}

// The offset of a refusal that is not a start's: of the lowest bad mark for 4, else 0.
fn offset_of(marks: &[u8], why: Refusal) -> u32
    requires { spec.offset_of marks.now why < bank_size }
    ensures { result ≡ spec.offset_of marks.now why }
{
    if matches!(why, Refusal::Mark) {
        bad_mark(marks) as u32
    } else {
        0
    }
}

// The check of an image against its marks, at a base and a reset address.
#[tactic(auto, unfolding(acceptance::specs::Verdict::verdict))]
pub fn check(image: &[u8], marks: &[u8], base: u32, reset: u32) -> Verdict
    ensures { result ≡ spec.verdict image.now marks.now base reset }
{
    if let Err(why) = test_marks(image.len(), marks, base, reset) {
        let offset = offset_of(marks, why);
        return Err(Refused { why, offset });
    }
    starts_verdict(image, &Marks { bytes: marks, base })
}

// The check's answer as a number, as a caller in C gets it.
#[tactic(auto, using(crate::proofs::Packing::verdict_fits))]
pub fn packed_verdict(image: &[u8], marks: &[u8], base: u32, reset: u32) -> u32
    ensures { result ≡ packed_verdict (spec.verdict image.now marks.now base reset) }
{
    pack(check(image, marks, base, reset))
}

// How many instructions the marks start.
#[tactic(auto, using(crate::proofs::Counts::counted))]
pub fn count_starts(marks: &[u8]) -> usize
    ensures { result ≡ start_count marks.now }
{
    marks.iter().filter(|mark| is_start(**mark)).count()
}
