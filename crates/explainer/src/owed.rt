// Which requirement a line names, of those that a start owes.
ghost use Rattle.std.specs.Prelude.{◌≡◌, Bool};
ghost use Rattle.types.specs.declared.rules.Requirement.{Requirement};
ghost use Rattle.acceptance.specs.Verdict.{is_start_at, has_mark_at};
ghost use Rattle.reports.specs.Explanation as spec;

use checker::start::{has_mark_at, is_start_at};
use places::place::Marks;
use types::code::Flow;
use types::rules::{Requirement, Requirements};

// The requirements in the order of the check.
#[tactic(auto, unfolding(reports::specs::Explanation::requirement_at))]
pub(crate) fn requirement_at(owed: Requirements, k: usize) -> Requirement
    ensures { result ≡ spec.requirement_at owed k }
{
    match owed {
        Requirements::Nothing => Requirement {
            address: 0,
            mark: 0,
        },
        Requirements::One(w) => w,
        Requirements::Two(v, w) => if k == 0 { v } else { w },
    }
}

// The first requirement that fails a test. One of them does, so that of two it is the second where the first passes.
#[tactic(auto, unfolding(reports::specs::Explanation::first_broken))]
fn first_broken<F: Fn(Requirement) -> bool>(owed: Requirements, test: F) -> usize
    requires { F.IsAlwaysCallable test }
    ensures { (by : Requirement → Bool) → ((w : Requirement) (r : Bool) → F.post test w r → r ≡ by w)
        → result ≡ spec.first_broken by owed }
{
    match owed {
        Requirements::Two(v, _) if test(v) => 1,
        _ => 0,
    }
}

// Number 8: the first requirement that has no start.
pub(crate) fn first_without_start(marks: &Marks, owed: Requirements) -> usize
    ensures { result ≡ spec.first_broken (is_start_at marks.now.bytes.now marks.now.base) owed }
{
    first_broken(owed, |w| is_start_at(marks, w))
}

// Number 9: the first requirement that has another mark.
pub(crate) fn first_with_other_mark(marks: &Marks, owed: Requirements) -> usize
    ensures { result ≡ spec.first_broken (has_mark_at marks.now.bytes.now marks.now.base) owed }
{
    first_broken(owed, |w| has_mark_at(marks, w))
}

// The return widths of a call's target, its first requirement, are free.
#[tactic(auto, unfolding(reports::specs::Explanation::is_free_at))]
pub(crate) fn is_free(flow: Flow, k: usize) -> bool
    ensures { result ≡ spec.is_free_at flow k }
{
    match flow {
        Flow::Call(_) => k == 0,
        _ => false,
    }
}

// The kind that an instruction returns by, 0 for none.
#[tactic(auto, unfolding(reports::specs::Explanation::return_kind))]
pub(crate) fn return_kind(flow: Flow) -> u8
    ensures { result ≡ spec.return_kind flow }
{
    match flow {
        Flow::Return(kind) => u8::from(kind),
        _ => 0,
    }
}
