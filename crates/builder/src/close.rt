// Marks closed up: what a start requires is put too, until nothing is left to put.
ghost use Rattle.std.specs.Prelude.{◌≡◌, List, ℕ, ◌+◌, ◌≤◌, ◌<◌, length};
ghost use Rattle.types.specs.Addresses.{address_limit, bank_size, image_limit};
ghost use Rattle.lists.specs.Routines.{Plain};
ghost use Rattle.builder.specs.Order as spec;

use crate::order::{Order, list_starts, put};
use checker::owed::owed_there;
use image::IMAGE_LIMIT;
use places::place::{Marks, Place};
use types::rules::{Requirement, Requirements};

// What the start at a place requires; nothing where no instruction is read there.
#[tactic(auto, unfolding(crate::specs::Order::owed_of))]
fn owed_behind(image: &[u8], marks: &Marks, at: usize) -> Requirements
    requires { (length marks.now.bytes.now ≡ length image.now) × (at < length marks.now.bytes.now) }
    ensures { result ≡ spec.owed_behind image.now marks.now.bytes.now marks.now.base at }
{
    let place = Place {
        image,
        marks: *marks,
        at,
    };
    match place.instruction() {
        Ok(instruction) => owed_there(&instruction),
        Err(_) => Requirements::Nothing,
    }
}

// Puts what the start at a place requires.
fn put_behind(image: &[u8], marks: &mut [u8], order: &mut Order, base: u32, at: usize)
    requires { spec.Queue marks.old order.old.places order.old.count × (length marks.old ≡ length image.now)
        × (at < length marks.old) × (base + length marks.old ≤ address_limit)
        × (length marks.old ≤ bank_size) }
    ensures { (marks.new ≡ spec.put_owed marks.old base
        (spec.owed_behind image.now marks.old base at))
        × spec.Queue marks.new order.new.places order.new.count
        × spec.Kept order.old.places order.old.count order.new.places order.new.count }
{
    let starts = Marks { bytes: marks, base };
    let owed = owed_behind(image, &starts, at);
    match owed {
        Requirements::Nothing => {}
        Requirements::One(w) => put(marks, order, base, w),
        Requirements::Two(v, w) => {
            put(marks, order, base, v);
            put(marks, order, base, w);
        }
    }
}

// Goes through the order from its first start on, and puts what each requires. Each is gone through once.
fn work(image: &[u8], marks: &mut [u8], order: &mut Order, base: u32)
    requires { spec.Queue marks.old order.old.places order.old.count
        × (length marks.old ≡ length image.now) × (base + length marks.old ≤ address_limit)
        × (length marks.old ≤ bank_size) }
    ensures { (reset : ℕ) (routines : List ℕ)
        → spec.Working image.now base reset routines marks.old order.old.places order.old.count 0
        → spec.Working image.now base reset routines marks.new order.new.places order.new.count order.new.count }
{
    // No range counts these places: the order grows while it is gone through.
    let mut done = 0;
    while done < order.count {
        let at = order.places[done] as usize;
        put_behind(image, marks, order, base, at);
        done += 1;
    }
}

// Closes up the marks of the listed routines, with the start at the reset address: mark 01.
pub(crate) fn close_up(image: &[u8], base: u32, reset: u32, marks: &mut [u8])
    requires { Plain marks.old × (length marks.old ≡ length image.now)
        × (length image.now ≤ image_limit) × (base + length image.now ≤ address_limit) }
    ensures { spec.Closed image.now base reset marks.old marks.new }
{
    let mut order = Order {
        places: [0; IMAGE_LIMIT],
        count: 0,
    };
    list_starts(marks, &mut order);
    let at_reset = Requirement {
        address: reset,
        mark: 1,
    };
    put(marks, &mut order, base, at_reset);
    work(image, marks, &mut order, base);
}
