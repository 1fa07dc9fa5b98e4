// The rules at one start: the first that is broken.
ghost use Rattle.std.specs.Prelude.{◌≡◌, ◌+◌, ◌-◌, ◌<◌, ◌≤◌, ◌&&◌, Bool, length, take, drop, nat_le, nat_lt};
ghost use Rattle.types.specs.declared.rules.Requirement.{Requirement};
ghost use Rattle.types.specs.Addresses.{address_limit};
ghost use Rattle.types.specs.Refusals.{first_refusal};
ghost use Rattle.acceptance.specs.Rules as rules;
ghost use Rattle.acceptance.specs.Verdict as verdict;
ghost use Rattle.fields.specs.Fields.{number};
ghost use Rattle.places.specs.Placed.{instruction_in};
ghost use Rattle.prelude.specs.First.{first_from};
ghost use Rattle.checker.specs.Steps.{step_at};
ghost use Rattle.checker.specs.Owes.{all_owed, return_tests, owed_tests, MarksOfStarts};

use crate::owed::owed_there;
use entries::flow_of;
use fields::{byte_at, low_bytes, six_bytes};
use image::is_start;
use image::marks::{mark_kind, mark_m, mark_x, return_m, return_x};
use places::place::{InstructionAt, Marks, Place};
use types::code::{Flow, Kind};
use types::refusals::Refusal;
use types::rules::{Requirement, Requirements};

// Number 8: some start stands there.
#[tactic(auto, unfolding(acceptance::specs::Verdict::is_start_at))]
pub fn is_start_at(marks: &Marks, w: Requirement) -> bool
    ensures { result ≡ verdict.is_start_at marks.now.bytes.now marks.now.base w }
{
    is_start(marks.mark_at(w.address))
}

// Number 9: that mark stands there.
#[tactic(auto, unfolding(acceptance::specs::Verdict::has_mark_at))]
pub fn has_mark_at(marks: &Marks, w: Requirement) -> bool
    ensures { result ≡ verdict.has_mark_at marks.now.bytes.now marks.now.base w }
{
    marks.mark_at(w.address) == w.mark
}

// Whether all that is owed passes a test.
fn all_owed<F: Fn(Requirement) -> bool>(owed: Requirements, test: F) -> bool
    requires { F.IsAlwaysCallable test }
    ensures { (passes : Requirement → Bool) → ((w : Requirement) (yes : Bool) → F.post test w yes → yes ≡ passes w)
        → result ≡ all_owed passes owed }
{
    match owed {
        Requirements::Nothing => true,
        Requirements::One(w) => test(w),
        Requirements::Two(v, w) => test(v) && test(w),
    }
}

// A return of a kind stands under that kind, at the marked return widths.
#[tactic(auto, unfolding(acceptance::specs::Rules::returns_by))]
fn returns_by(kind: Kind, mark: u8) -> bool
    ensures { result ≡ rules.returns_by kind mark }
{
    mark_kind(mark) == u8::from(kind)
        && mark_m(mark) == return_m(mark)
        && mark_x(mark) == return_x(mark)
}

// Number 10: the rule of RTS and RTL.
#[tactic(auto, unfolding(acceptance::specs::Rules::return_fits))]
fn return_fits(flow: Flow, mark: u8) -> bool
    ensures { result ≡ rules.return_fits flow mark }
{
    match flow {
        Flow::Return(kind) => returns_by(kind, mark),
        Flow::Next | Flow::Branch | Flow::Jump | Flow::Call(_) | Flow::Halt => true,
    }
}

// The lowest start of n places from a place on, or the place past them.
pub fn first_start(marks: &[u8], from: usize, n: usize) -> usize
    requires { from + n < 4_294_967_296 }
    ensures { result ≡ first_from (verdict.start_at marks.now) from n }
{
    let end = from + n;
    for i in from..end {
        if is_start(byte_at(marks, i)) {
            return i;
        }
    }
    end
}

// One less, or 0.
pub fn less_one(n: u8) -> usize
    ensures { result ≡ n - 1 }
{
    n.saturating_sub(1) as usize
}

// All marks behind the first of n, up to six, are 00. Asked only where six are there to be read at once.
fn zeros_behind(marks: &[u8], at: usize, n: u8) -> bool
    requires { (at < address_limit) × (n ≤ 6) }
    ensures { result ≡ (nat_le (at + 6) (length marks.now)
        && nat_lt (number (take n (drop at marks.now))) 256) }
{
    at + 6 <= marks.len() && low_bytes(six_bytes(marks, at), n) < 256
}

// Number 7: no start on the later bytes of an instruction of n bytes.
#[tactic(auto, using(crate::proofs::Clear::clear_by_zeros), unfolding(acceptance::specs::Verdict::is_clear))]
fn is_clear(marks: &[u8], at: usize, n: u8) -> bool
    requires { (at < address_limit) × (n ≤ 6) }
    ensures { result ≡ verdict.is_clear marks.now at n }
{
    if zeros_behind(marks, at, n) {
        return true;
    }
    let later = less_one(n);
    first_start(marks, at + 1, later) == at + 1 + later
}

// 10, where nothing is owed.
#[tactic(auto, unfolding(types::specs::Refusals::first_refusal))]
fn test_return(flow: Flow, mark: u8) -> Result<(), Refusal>
    ensures { result ≡ first_refusal (return_tests flow mark) }
{
    if !return_fits(flow, mark) {
        return Err(Refusal::Return);
    }
    Ok(())
}

// 8, 9. The marks that are wanted are those of starts, so that 9 is asked first: where it passes 8 does.
fn test_owed(marks: &Marks, owed: Requirements) -> Result<(), Refusal>
    requires { MarksOfStarts marks.now.bytes.now marks.now.base owed }
    ensures { result ≡ first_refusal (owed_tests marks.now.bytes.now marks.now.base owed) }
{
    if all_owed(owed, |w| has_mark_at(marks, w)) {
        return Ok(());
    }
    if !all_owed(owed, |w| is_start_at(marks, w)) {
        return Err(Refusal::Flow);
    }
    Err(Refusal::Widths)
}

// The rules of an instruction: 7, 10, 8, 9. What owes something is no return, and passes 10.
fn test_whole(i: &InstructionAt) -> Result<(), Refusal>
    ensures { result ≡ first_refusal (verdict.whole_tests i.now.place.marks.bytes.now i.now.place.marks.base
        i.now.place.at (instruction_in i.now)) }
{
    let marks = i.place.marks;
    if !is_clear(marks.bytes, i.place.at, i.layout.length) {
        return Err(Refusal::Overlap);
    }
    let owed = owed_there(i);
    match owed {
        Requirements::Nothing => test_return(flow_of(i.layout.number), i.place.mark()),
        Requirements::One(_) | Requirements::Two(_, _) => test_owed(&marks, owed),
    }
}

// The first rule that is broken at a place or, where none is, how many bytes are passed: the instruction's, or one
// where none starts.
pub(crate) fn step_at(place: &Place) -> Result<u8, Refusal>
    ensures { result
        ≡ step_at place.now.image.now place.now.marks.bytes.now place.now.marks.base place.now.at }
{
    if !is_start(place.mark()) {
        return Ok(1);
    }
    let instruction = place.instruction()?;
    test_whole(&instruction)?;
    Ok(instruction.layout.length)
}
