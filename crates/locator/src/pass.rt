// The pass over the marks, from the lowest to that of the highest address. No mark is read twice, so the mark of the
// last start is kept.
ghost use Rattle.std.specs.Prelude.{◌≡◌, true, ◌++◌, map, ◌+◌, ◌≤◌, ◌<◌, length, get_or, drop};
ghost use Rattle.types.specs.Addresses.{address_limit};
ghost use Rattle.reports.specs.Locate as spec;
ghost use Rattle.locator.specs.Passing.{marked, end_at, KnownEnd, number_from, OneServed};

use decoder::layout_at;
use image::is_start;
use image::marks::{mark_m, mark_x};
use places::place::Marks;
use types::addresses::ADDRESS_LIMIT;

// How far a pass has come: how many addresses have their places; the last start passed, by its offset and its mark, 0
// where none is; and where its instruction ends, 0 while no address has asked for it.
#[derive(Clone, Copy)]
struct Passing {
    served: usize,
    start: usize,
    mark: u8,
    end: usize,
}

// The mark at an offset is read.
fn read_mark(state: Passing, at: usize, mark: u8) -> Passing
    ensures { result ≡ marked state at mark }
{
    if !is_start(mark) {
        return state;
    }
    Passing {
        start: at,
        mark,
        end: 0,
        ..state
    }
}

// Where the instruction at an offset ends, at the widths of its mark; where none is read, at the offset. The mark is
// given, since the pass has it: a `Place` would read it again.
#[tactic(auto, using(crate::proofs::Passes::end_fits, crate::proofs::Passes::end_at_none))]
fn end_at(image: &[u8], at: usize, mark: u8) -> usize
    ensures { result ≡ end_at image.now at mark }
{
    match layout_at(image, at, mark_m(mark), mark_x(mark)) {
        Ok(layout) => at + layout.length as usize,
        Err(_) => at,
    }
}

// Where the instruction of the last start ends. It is decoded where no address has asked for it before.
#[tactic(auto, using(crate::proofs::Passes::end_kept))]
fn end_of(image: &[u8], state: Passing) -> usize
    requires { KnownEnd image.now state }
    ensures { result ≡ end_at image.now state.start state.mark }
{
    if state.end != 0 {
        return state.end;
    }
    end_at(image, state.start, state.mark)
}

// The place of the byte at an offset as a number, by the last start and the end of its instruction. Asks for a start
// within the addresses, so that the sums are numbers.
fn place_number(state: Passing, end: usize, base: u32, at: usize) -> u32
    requires { base + state.start < address_limit }
    ensures { result ≡ number_from state end base at }
{
    if !is_start(state.mark) {
        return 0;
    }
    let start = base + state.start as u32;
    if at < end {
        return start + ADDRESS_LIMIT;
    }
    start + 2 * ADDRESS_LIMIT
}

// The next address has its place if it lies at an offset. Asks that there is one, and room for its place.
fn serve(
    image: &[u8],
    base: u32,
    addresses: &[u32],
    places: &mut [u32],
    at: usize,
    state: Passing,
) -> Passing
    requires { KnownEnd image.now state × (base + state.start < address_limit)
        × (base + at < address_limit) × (state.served < length addresses.now)
        × (state.served < length places.old) }
    ensures { OneServed image.now base (get_or addresses.now state.served 0) at state result
        places.old places.new }
{
    let k = state.served;
    if addresses[k] != base + at as u32 {
        return state;
    }
    let end = end_of(image, state);
    places[k] = place_number(state, end, base, at);
    Passing {
        served: k + 1,
        end,
        ..state
    }
}

// The places of addresses that were tested, at the front of the lent ones; returns the number of marks read. Asks for
// what the check and the tests show.
pub(crate) fn pass_marks(
    image: &[u8],
    marks: &Marks,
    addresses: &[u32],
    places: &mut [u32],
) -> usize
    requires { (length marks.now.bytes.now ≡ length image.now)
        × (spec.addresses_fit marks.now.base (length image.now) addresses.now ≡ true)
        × (length addresses.now ≤ length places.old) }
    ensures { (result
        ≡ (spec.pass_over image.now marks.now.bytes.now marks.now.base addresses.now).read)
        × (places.new
        ≡ map spec.place_number
        (spec.pass_over image.now marks.now.bytes.now marks.now.base addresses.now).places
        ++ drop (length addresses.now) places.old) }
{
    let mut state = Passing {
        served: 0,
        start: 0,
        mark: 0,
        end: 0,
    };
    // The pass ends with the last address, wherever that lies, so no range counts the marks.
    let mut i = 0;
    while state.served < addresses.len() {
        state = read_mark(state, i, marks.bytes[i]);
        state = serve(image, marks.base, addresses, places, i, state);
        i += 1;
    }
    i
}
