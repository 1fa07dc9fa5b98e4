// The program check: reads an image file and a list file, and prints one line.
#![tactic(auto)]

use answer::answers::LIST_LIMIT;
use answer::put_answer_line;
use files::read_named;
use image::IMAGE_LIMIT;
use std::io;

// The program's name, the image and the list.
const WORDS: usize = 3;

// Reads both files, an unread one as one that is too long, and prints the line.
fn main(rt: HostRuntime) -> io::Result<()> {
    let mut image = [0; IMAGE_LIMIT + 1];
    let mut list = [0; LIST_LIMIT + 1];
    let mut line = [0; 14];
    let image = read_named(&rt, 1, WORDS, &mut image);
    let list = read_named(&rt, 2, WORDS, &mut list);
    let size = put_answer_line(image, list, &mut line);
    rt.write_all(&line[..size])
}
