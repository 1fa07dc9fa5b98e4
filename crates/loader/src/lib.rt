// The functions of the C interface (include/m7700.h), over numbers and slices. The crate loader_c gives them to C.
#![tactic(auto)]

ghost use Rattle.std.specs.Prelude.{◌≡◌, ◌≤◌, length};
ghost use Rattle.semantics.specs.Memory.{memory};
ghost use Rattle.execution.specs.RunBytes.{ran_bytes};
ghost use Rattle.acceptance.specs.Verdict.{verdict};
ghost use Rattle.lists.specs.MarkList.{read_list, marks_read, write_list, page_written};
ghost use Rattle.lists.specs.Routines.{built, marks_built};
ghost use Rattle.reports.specs.PrintedPage.{printed, page_printed};
ghost use Rattle.reports.specs.Explanation.{line_limit, explanation, explained, page_explained};
ghost use Rattle.reports.specs.Locate.{located, places_located};
ghost use Rattle.packing.specs.Packed.{packed_verdict, packed_read, packed_written, packed_built, packed_printed};
ghost use Rattle.packing.specs.Packed.{packed_located, packed_run};

use builder::build_marks;
use checker::packed_verdict;
use explainer::explain;
use locator::locate;
use marklist::reader::read_list;
use marklist::writer::write_list;
use packing::{pack_built, pack_count, pack_read, pack_run, pack_written, pass_on};
use printer::print_accepted;
use runs::bytes::run;

// The check: 0 where the image is accepted, else the number of the first broken rule and its offset.
pub fn m7700_check(image: &[u8], marks: &[u8], base: u32, reset: u32) -> u32
    ensures { result ≡ packed_verdict (verdict image.now marks.now base reset) }
{
    packed_verdict(image, marks, base, reset)
}

// The reader of mark lists: 0 in the low byte and the list's base and reset above it, or the number that refuses it.
#[tactic(auto, using(crate::proofs::Answers::read_fits))]
pub fn m7700_read_list(text: &[u8], marks: &mut [u8]) -> u64
    ensures answer { result ≡ packed_read (read_list text.now marks.old) }
    ensures marks { marks.new ≡ marks_read text.now marks.old }
{
    pack_read(read_list(text, marks))
}

// The writer of mark lists: 0 in the low byte and the list's length above it, or the number that refuses it.
#[tactic(auto, using(crate::proofs::Answers::written_fits))]
pub fn m7700_write_list(marks: &[u8], base: u32, reset: u32, page: &mut [u8]) -> u64
    ensures answer { result ≡ packed_written (write_list marks.now base reset page.old) }
    ensures page { page.new ≡ page_written marks.now base reset page.old }
{
    pack_written(write_list(marks, base, reset, page))
}

// The builder of marks: 0 where they were built, or the number that refuses the routine list.
pub fn m7700_build_marks(
    image: &[u8],
    base: u32,
    reset: u32,
    routines: &[u8],
    marks: &mut [u8],
) -> u64
    ensures answer { result ≡ packed_built (built image.now base reset routines.now marks.old) }
    ensures marks { marks.new ≡ marks_built image.now base reset routines.now marks.old }
{
    pack_built(build_marks(image, base, reset, routines, marks))
}

// The printed page: 0 in the low byte and the length of the rows above it; or the number that refuses it, with the
// check's offset above it.
pub fn m7700_print(image: &[u8], marks: &[u8], base: u32, reset: u32, page: &mut [u8]) -> u64
    ensures answer { result ≡ packed_printed (printed image.now marks.now base reset page.old) }
    ensures page { page.new ≡ page_printed image.now marks.now base reset page.old }
{
    let refusal = m7700_check(image, marks, base, reset);
    if refusal != 0 {
        return pass_on(refusal);
    }
    pack_count(print_accepted(image, marks, base, page))
}

// The line that says what the check's refusal is about: 0 in the low byte and its length above it; or 15 for want of
// room.
#[tactic(auto, using(explainer::proofs::Answers::explained_fits))]
pub fn m7700_explain(image: &[u8], marks: &[u8], base: u32, reset: u32, page: &mut [u8]) -> u64
    ensures answer { result ≡ packed_printed (explained image.now marks.now base reset page.old) }
    ensures page { page.new ≡ page_explained image.now marks.now base reset page.old }
    ensures short { length (explanation image.now marks.now base reset) ≤ line_limit }
{
    pack_count(explain(image, marks, base, reset, page))
}

// Where addresses lie: 0 in the low byte and the number of marks read above it; or the number that refuses them, with
// the check's offset above it.
pub fn m7700_locate(
    image: &[u8],
    marks: &[u8],
    base: u32,
    reset: u32,
    addresses: &[u32],
    places: &mut [u32],
) -> u64
    ensures answer { result ≡ packed_located (located image.now marks.now base reset
        addresses.now places.old) }
    ensures places { places.new ≡ places_located image.now marks.now base reset
        addresses.now places.old }
{
    let refusal = m7700_check(image, marks, base, reset);
    if refusal != 0 {
        return pass_on(refusal);
    }
    pack_count(locate(image, marks, base, addresses, places))
}

// A run of the machine: 0 in the low byte and the end, the steps and the calls above it, or the number that refuses it.
#[tactic(auto, using(crate::proofs::Counts::run_fits))]
pub fn m7700_run(image: &[u8], base: u32, state: &mut [u8], ram: &mut [u8], steps: u32) -> u64
    ensures answer { result
        ≡ packed_run
        (ran_bytes (memory ram.old image.now base) state.old steps).answer }
    ensures state { state.new
        ≡ (ran_bytes (memory ram.old image.now base) state.old steps).state }
    ensures ram { ram.new
        ≡ (ran_bytes (memory ram.old image.now base) state.old steps).ram }
{
    pack_run(run(image, base, state, ram, steps))
}

// A step of the machine: a run of one.
#[tactic(auto, using(crate::proofs::Counts::run_fits))]
pub fn m7700_step(image: &[u8], base: u32, state: &mut [u8], ram: &mut [u8]) -> u64
    ensures answer { result ≡ packed_run (ran_bytes (memory ram.old image.now base) state.old 1).answer }
    ensures state { state.new
        ≡ (ran_bytes (memory ram.old image.now base) state.old 1).state }
    ensures ram { ram.new
        ≡ (ran_bytes (memory ram.old image.now base) state.old 1).ram }
{
    pack_run(run(image, base, state, ram, 1))
}
