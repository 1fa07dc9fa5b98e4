// The program marks: reads an image file and a routine file, takes a base and a reset address, and prints the mark list
// that they lead to, or a line of the program check.
#![tactic(auto)]

ghost use Rattle.std.specs.Prelude.{◌≤◌, length};

use answer::answers::LIST_LIMIT;
use builtlist::{longest_list, put_built_list};
use files::read_named;
use image::IMAGE_LIMIT;
use marklist::lines::NEW_DIGITS;
use std::io;
use std::rt::Env;

// The program's name, the image, the base, the reset address and the routines.
const WORDS: usize = 5;

// An argument, copied to the front of a buffer; a longer or a missing one is empty.
fn take_word<'a>(env: &impl Env, argument: usize, buffer: &'a mut [u8]) -> &'a [u8]
    ensures { length result.now ≤ length buffer.old }
{
    let size = env.arg(argument, buffer).unwrap_or(0);
    &buffer[..size]
}

// Reads both files, an unread one as one that is too long, and both words, a longer one as none, and prints what they
// lead to.
fn main(rt: HostRuntime) -> io::Result<()> {
    let mut image = [0; IMAGE_LIMIT + 1];
    let mut base = [0; NEW_DIGITS];
    let mut reset = [0; NEW_DIGITS];
    let mut routines = [0; LIST_LIMIT + 1];
    let mut page = longest_list();
    let image = read_named(&rt, 1, WORDS, &mut image);
    let base = take_word(&rt, 2, &mut base);
    let reset = take_word(&rt, 3, &mut reset);
    let routines = read_named(&rt, 4, WORDS, &mut routines);
    let size = put_built_list(image, base, reset, routines, &mut page);
    rt.write_all(&page[..size])
}
