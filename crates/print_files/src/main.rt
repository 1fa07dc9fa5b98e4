// The program print: reads an image file and a list file, and prints the page, or the line of the program check.
#![tactic(auto)]

use answer::answers::LIST_LIMIT;
use files::read_named;
use image::IMAGE_LIMIT;
use printout::{longest_page, put_printout};
use std::io;

// The program's name, the image and the list.
const WORDS: usize = 3;

// Reads both files, an unread one as one that is too long, and prints what they lead to.
fn main(rt: HostRuntime) -> io::Result<()> {
    let mut image = [0; IMAGE_LIMIT + 1];
    let mut list = [0; LIST_LIMIT + 1];
    let mut page = longest_page();
    let image = read_named(&rt, 1, WORDS, &mut image);
    let list = read_named(&rt, 2, WORDS, &mut list);
    let size = put_printout(image, list, &mut page);
    rt.write_all(&page[..size])
}
