// Marks worked out from a routine list: 02, R-6.
#![tactic(auto)]

mod close;
mod listed;
mod order;

ghost use Rattle.std.specs.Prelude.{◌≡◌, ◌+◌, ◌≤◌, length};
ghost use Rattle.types.specs.Addresses.{address_limit, image_limit};
ghost use Rattle.types.specs.Refusals.{first_refusal};
ghost use Rattle.lists.specs.Routines as spec;
ghost use Rattle.builder.specs.Order.{Closed};

use crate::close::close_up;
use crate::listed::all_listed;
use checker::{count_starts, packed_verdict};
use image::IMAGE_LIMIT;
use marklist::lines::first_address;
use marklist::reader::{fill_marks, test_beside_image};
use marklist::routines::{has_old_lines, is_routine_list};
use places::place::Marks;
use text::bytes::put_bytes;
use types::refusals::Refusal;

// The limit of lists/specs/Routines.antt.
const ROUTINE_LIMIT: usize = 256;

// 14, 1, 2: the text is judged whole before the image.
#[tactic(auto, unfolding(types::specs::Refusals::first_refusal))]
fn test_form(routines: &[u8], image: usize, marks: usize, base: u32) -> Result<(), Refusal>
    ensures { result ≡ first_refusal (spec.form_tests routines.now image marks base) }
{
    if !is_routine_list(routines) {
        return Err(Refusal::List);
    }
    test_beside_image(has_old_lines(routines), image, marks, base)
}

// Reads the routines beside an image, whose bytes are as many as the lent marks: the mark of each at its place, 00
// elsewhere. Whether all lie in the image, and are not too many. Asks for an image within the addresses.
fn read_routines(routines: &[u8], base: u32, table: &mut [u8]) -> bool
    requires { length table.old ≤ image_limit }
    ensures fit { result ≡ spec.routines_fit base (length table.old) routines.now }
    ensures marks { table.new
        ≡ spec.routine_marks base (length table.old) routines.now }
{
    let old = has_old_lines(routines);
    let end = fill_marks(routines, 0, old, first_address(old, base), table);
    end == routines.len() && count_starts(table) <= ROUTINE_LIMIT
}

// Closes the marks of the listed routines up; returns whether they are admitted then, by the check itself.
fn work_out(image: &[u8], base: u32, reset: u32, routines: &[u8], made: &mut [u8]) -> bool
    requires { spec.Plain routines.now × (length routines.now ≡ length image.now)
        × (length made.old ≡ length image.now) × (length image.now ≤ image_limit)
        × (base + length image.now ≤ address_limit) }
    ensures { Closed image.now base reset routines.now made.new
        × (result ≡ spec.is_admitted image.now base reset routines.now made.new) }
{
    put_bytes(made, routines);
    close_up(image, base, reset, made);
    if packed_verdict(image, made, base, reset) != 0 {
        return false;
    }
    let marks = Marks { bytes: made, base };
    let listed = Marks {
        bytes: routines,
        base,
    };
    all_listed(image, &marks, &listed)
}

// Builds the marks of an image whose length, base and routine list are in form. Asks for room beside the image, for the
// routines and for the marks that are made of them; the lent marks are written when all is sure.
fn build_in(
    image: &[u8],
    base: u32,
    reset: u32,
    routines: &[u8],
    table: &mut [u8],
    made: &mut [u8],
    marks: &mut [u8],
) -> Result<(), Refusal>
    requires { (length table.old ≡ length image.now) × (length made.old ≡ length image.now)
        × (first_refusal (spec.form_tests routines.now (length image.now) (length marks.old) base)
        ≡ Ok tt) }
    ensures answer { result ≡ spec.built image.now base reset routines.now marks.old }
    ensures marks { marks.new ≡ spec.marks_built image.now base reset routines.now marks.old }
{
    if !read_routines(routines, base, table) {
        return Err(Refusal::Routines);
    }
    if !work_out(image, base, reset, table, made) {
        return Err(Refusal::Routines);
    }
    put_bytes(marks, made);
    Ok(())
}

// Builds the marks of an image from its routine list: the least marking that is admitted.
pub fn build_marks(
    image: &[u8],
    base: u32,
    reset: u32,
    routines: &[u8],
    marks: &mut [u8],
) -> Result<(), Refusal>
    ensures answer { result ≡ spec.built image.now base reset routines.now marks.old }
    ensures marks { marks.new ≡ spec.marks_built image.now base reset routines.now marks.old }
{
    let n = image.len();
    test_form(routines, n, marks.len(), base)?;
    let mut table = [0u8; IMAGE_LIMIT];
    let mut made = [0u8; IMAGE_LIMIT];
    build_in(
        image,
        base,
        reset,
        routines,
        &mut table[..n],
        &mut made[..n],
        marks,
    )
}
