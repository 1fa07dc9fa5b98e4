// The program of check --explain: reads an image file and a list file, and prints the line of the program check and the
// line that explains it.
#![tactic(auto)]

use answer::answers::LIST_LIMIT;
use explanation::{TEXT_LIMIT, put_explained};
use files::read_named;
use image::IMAGE_LIMIT;
use std::io;

// The program's name, the image and the list.
const WORDS: usize = 3;

// Reads both files, an unread one as one that is too long, and prints the lines.
fn main(rt: HostRuntime) -> io::Result<()> {
    let mut image = [0; IMAGE_LIMIT + 1];
    let mut list = [0; LIST_LIMIT + 1];
    let mut lines = [0; TEXT_LIMIT];
    let image = read_named(&rt, 1, WORDS, &mut image);
    let list = read_named(&rt, 2, WORDS, &mut list);
    let size = put_explained(image, list, &mut lines);
    rt.write_all(&lines[..size])
}
