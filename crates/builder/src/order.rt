// Starts that are put one after another: the mark at its place, and the place at the end of an order. Nothing is taken
// from the order, so that each start stands in it once.
ghost use Rattle.std.specs.Prelude.{◌≡◌, true, false, ◌+◌, ◌-◌, ◌≤◌, ◌<◌, length, set, MatchOption};
ghost use Rattle.types.specs.Addresses.{bank_size, image_limit};
ghost use Rattle.acceptance.specs.Image.{is_start};
ghost use Rattle.lists.specs.Routines.{Plain};
ghost use Rattle.builder.specs.Order as spec;

use image::{IMAGE_LIMIT, is_start};
use types::rules::Requirement;

// The place of an address of the image at which no start stands.
#[tactic(auto, unfolding(crate::specs::Order::is_free_at))]
fn free_place(marks: &[u8], base: u32, address: u32) -> Option<usize>
    ensures { MatchOption result (spec.is_free_at marks.now base address ≡ false)
        (λ place. (spec.is_free_at marks.now base address ≡ true) × (place ≡ address - base)) }
{
    if address < base {
        return None;
    }
    let place = (address - base) as usize;
    if marks.len() <= place || is_start(marks[place]) {
        return None;
    }
    Some(place)
}

// The places of starts, one after another: the first so many of them. As many fit as an image has.
#[derive(Drop)]
pub(crate) struct Order {
    pub(crate) places: [u16; IMAGE_LIMIT],
    pub(crate) count: usize,
}

impl Order {
    // One place more. Asks for room, and for a place of 16 bits.
    fn push(&mut self, place: usize)
        requires { (self.old.count < image_limit) × (place < bank_size) }
        ensures { (self.new.count ≡ self.old.count + 1)
            × (self.new.places ≡ set self.old.places self.old.count place) }
    {
        self.places[self.count] = place as u16;
        self.count += 1;
    }
}

// Puts a start where its address is free. Asks for the mark of a start, and for places of 16 bits.
pub(crate) fn put(marks: &mut [u8], order: &mut Order, base: u32, w: Requirement)
    requires { spec.Queue marks.old order.old.places order.old.count × (is_start w.mark ≡ true)
        × (length marks.old ≤ bank_size) }
    ensures { (marks.new ≡ spec.put marks.old base w.address w.mark)
        × spec.Queue marks.new order.new.places order.new.count
        × spec.Kept order.old.places order.old.count order.new.places order.new.count }
{
    if let Some(place) = free_place(marks, base, w.address) {
        marks[place] = w.mark;
        order.push(place);
    }
}

// The starts of marks, from the lowest, into an empty order. Asks for room, and for places of 16 bits.
pub(crate) fn list_starts(marks: &[u8], order: &mut Order)
    requires { Plain marks.now × (length marks.now ≤ bank_size) × (order.old.count ≡ 0)
        × (length marks.now ≤ length order.old.places) }
    ensures { spec.Queue marks.now order.new.places order.new.count }
{
    for (at, mark) in marks.iter().enumerate() {
        if is_start(*mark) {
            order.push(at);
        }
    }
}
