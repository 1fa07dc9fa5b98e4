// The targets of calls are on the routine list.
ghost use Rattle.std.specs.Prelude.{◌≡◌, ◌+◌, ◌≤◌, length};
ghost use Rattle.types.specs.Addresses.{address_limit};
ghost use Rattle.lists.specs.Routines as spec;
ghost use Rattle.places.specs.Placed.{instruction_in};

use entries::flow_of;
use image::is_start;
use places::place::{InstructionAt, Marks, Place};
use types::code::Flow;

// The target of an instruction is on the list, where that is a call.
#[tactic(auto, unfolding(lists::specs::Routines::target_listed, lists::specs::Routines::flow_listed))]
fn target_listed(i: &InstructionAt, routines: &Marks) -> bool
    requires { routines.now.base ≡ i.now.place.marks.base }
    ensures { result ≡ spec.target_listed routines.now.bytes.now routines.now.base i.now.place.at
        (Ok (instruction_in i.now)) }
{
    match flow_of(i.layout.number) {
        Flow::Call(_) => is_start(routines.mark_at(i.target().number())),
        Flow::Next | Flow::Branch | Flow::Jump | Flow::Return(_) | Flow::Halt => true,
    }
}

// A start that calls what is not on the list.
#[tactic(auto, unfolding(lists::specs::Routines::target_listed))]
fn is_stray(place: &Place, routines: &Marks) -> bool
    requires { routines.now.base ≡ place.now.marks.base }
    ensures { result ≡ spec.stray_at place.now.image.now place.now.marks.bytes.now routines.now.base
        routines.now.bytes.now place.now.at }
{
    if !is_start(place.mark()) {
        return false;
    }
    match place.instruction() {
        Ok(instruction) => !target_listed(&instruction, routines),
        Err(_) => false,
    }
}

// Every call's target is on the list.
pub(crate) fn all_listed(image: &[u8], marks: &Marks, routines: &Marks) -> bool
    requires { (length marks.now.bytes.now ≡ length image.now) × (routines.now.base ≡ marks.now.base) }
    ensures { result ≡ spec.all_are_listed image.now marks.now.bytes.now marks.now.base routines.now.bytes.now }
{
    for at in 0..image.len() {
        let place = Place {
            image,
            marks: *marks,
            at,
        };
        if is_stray(&place, routines) {
            return false;
        }
    }
    true
}
