// Reading the files that a program's arguments name. Each program keeps its own few lines over it: a function for all
// of them would take their limits, and what they make of the files with its contract, and be no plainer.
#![tactic(auto)]

ghost use Rattle.std.specs.Prelude.{◌≤◌, length, IfSome};
ghost use Rattle.std.specs.Counts.{IsPrefixLen};

use std::env::FillError;
use std::fs::File;
use std::io::Read;
use std::rt::{Env, Files};

// A file's name has at most so many bytes, its end counted.
const PATH_LIMIT: usize = 4_096;

// Nothing is left to read. A read that fails does not show that.
fn is_ended(file: &mut impl Read) -> bool {
    matches!(file.read(&mut [0]), Ok(0))
}

// Reads until the buffer is full, nothing comes or a read fails, and returns how many bytes came.
pub fn read_full(file: &mut impl Read, buffer: &mut [u8]) -> usize
    ensures { IsPrefixLen result buffer.new }
{
    // An iterator would read once more where the buffer is full.
    let mut done = 0;
    while done < buffer.len() {
        match file.read(&mut buffer[done..]) {
            Ok(0) | Err(_) => break,
            Ok(count) => done += count,
        }
    }
    done
}

// Whether the program was given an argument of this number.
fn is_given(env: &impl Env, argument: usize) -> bool {
    !matches!(env.arg(argument, &mut []), Err(FillError::NotPresent))
}

// Whether the program was given so many words, its own name counted.
fn is_given_words(env: &impl Env, words: usize) -> bool {
    !is_given(env, words) && (words == 0 || is_given(env, words - 1))
}

// The open file that an argument names.
fn open_named<R: Files + Env>(rt: &R, argument: usize) -> Option<R::File> {
    let mut path = [0; PATH_LIMIT];
    let length = rt.arg(argument, &mut path).ok()?;
    let name = str::from_utf8(&path[..length]).ok()?;
    File::open(rt, name).ok()
}

// How many bytes the file that an argument names has, which it reads to the front of a buffer; nothing where the file
// can't be read, or is longer.
fn read_whole<R: Files + Env>(rt: &R, argument: usize, buffer: &mut [u8]) -> Option<usize>
    ensures { IfSome result (λ size. IsPrefixLen size buffer.new) }
{
    let mut file = open_named(rt, argument)?;
    let size = read_full(&mut file, buffer);
    is_ended(&mut file).then_some(size)
}

// The file that an argument names, read to the front of a buffer. The program takes so many words, its own name
// counted; where it was given more or fewer, no file is read. The buffer has a byte more than the file may have; a file
// that can't be read counts as one that fills it.
pub fn read_named<'a, R: Files + Env>(
    rt: &R,
    argument: usize,
    words: usize,
    buffer: &'a mut [u8],
) -> &'a [u8]
    ensures { length result.now ≤ length buffer.old }
{
    if !is_given_words(rt, words) {
        return buffer;
    }
    let size = read_whole(rt, argument, buffer).unwrap_or(buffer.len());
    &buffer[..size]
}
