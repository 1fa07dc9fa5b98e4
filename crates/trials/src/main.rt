// Tries the functions that loaders call (include/m7700.h) on the simulator's vectors, check-00.bin and so on: a line
// for each file, how many records agree out of how many, and behind the files of a kind a line for each number, how
// many records were answered with it and agreed. A run is refused with a number below 20, stopped by one from 20 on,
// or ended with 0.
#![tactic(auto)]

mod parts;
mod records;

ghost use Rattle.std.specs.Prelude.{◌≤◌};

use crate::parts::{FIVE_PARTS, FOUR_PARTS, Records, THREE_PARTS, TWO_PARTS};
use crate::records::{
    Trial, try_build, try_check, try_explain, try_locate, try_print, try_read, try_run, try_step,
    try_write,
};
use files::read_full;
use std::fs::File;
use std::io;
use std::rt::Files;

// The numbers of the papers end at 27.
const NUMBERS: usize = 28;

// The most bytes of a file that are read.
const FILE_LIMIT: usize = 65_536;

// Tries the records of a file, as many as it says and then nothing more, counts those that agree by their number, and
// says how many agree.
fn try_records<F: Fn(&mut Records, &mut [u8]) -> Trial>(
    rt: &impl Print,
    mut records: Records,
    try_record: F,
    room: &mut [u8],
    numbers: &mut [u64; NUMBERS],
) -> io::Result<()>
    requires { F.IsAlwaysCallable try_record }
{
    let count = records.take_u32();
    let mut agreed: u64 = 0;
    for _ in 0..count {
        if let Some(number) = try_record(&mut records, room) {
            agreed += 1;
            // A wrapping sum, since what other files have counted has no bound here.
            if let Some(seen) = numbers.get_mut(number) {
                *seen = seen.wrapping_add(1);
            }
        }
        if records.is_broken() {
            break;
        }
    }
    let rest = if records.is_done() {
        ""
    } else {
        ", and the file is not of the form"
    };
    println!(rt; "{agreed} of {count} agree{rest}")
}

// Tries the file of a name, if it is there.
fn try_named<R: Files + Print, F: Fn(&mut Records, &mut [u8]) -> Trial>(
    rt: &R,
    name: &str,
    long: bool,
    try_record: F,
    room: &mut [u8],
    numbers: &mut [u64; NUMBERS],
) -> io::Result<()>
    requires { F.IsAlwaysCallable try_record }
{
    let Ok(mut file) = File::open(rt, name) else {
        return Ok(());
    };
    let mut buffer = [0; FILE_LIMIT];
    let size = read_full(&mut file, &mut buffer);
    print!(rt; "{name}: ")?;
    let records = Records::new(&buffer[..size], long);
    try_records(rt, records, try_record, room, numbers)
}

// A number that no record had has no line.
fn say_counts(rt: &impl Print, numbers: &[u64; NUMBERS]) -> io::Result<()> {
    for (number, count) in numbers.iter().enumerate() {
        if 0 < *count {
            println!(rt; "{number}: {count}")?;
        }
    }
    Ok(())
}

// Tries the files of a kind, 00 to 99 where there is one, and that of long images and marks. A name ends in NN.bin; a
// missing file is a missing line. Not inlined, since the rooms of two kinds would then lie on the stack at once.
#[inline(never)]
fn try_files<
    const ROOM: usize,
    const N: usize,
    R: Files + Print,
    F: Copy + Fn(&mut Records, &mut [u8]) -> Trial,
>(rt: &R, mut name: [u8; N], long_name: &str, try_record: F) -> io::Result<()>
    requires digits { 6 ≤ N }
    requires room { ROOM ≤ 500_000 }
    requires call { F.IsAlwaysCallable try_record }
{
    let mut room = [0; ROOM];
    let room = &mut room[..];
    let mut numbers = [0; NUMBERS];
    for number in 0..100 {
        name[N - 6] = b'0' + number / 10;
        name[N - 5] = b'0' + number % 10;
        if let Ok(name) = str::from_utf8(&name) {
            try_named(rt, name, false, try_record, room, &mut numbers)?;
        }
    }
    try_named(rt, long_name, true, try_record, room, &mut numbers)?;
    say_counts(rt, &numbers)
}

// All kinds of records.
fn main(rt: HostRuntime) -> io::Result<()> {
    try_files::<TWO_PARTS, _, _, _>(&rt, *b"check-00.bin", "check-long.bin", try_check)?;
    try_files::<FIVE_PARTS, _, _, _>(&rt, *b"step-00.bin", "step-long.bin", try_step)?;
    try_files::<FIVE_PARTS, _, _, _>(&rt, *b"run-00.bin", "run-long.bin", try_run)?;
    try_files::<TWO_PARTS, _, _, _>(&rt, *b"read-00.bin", "read-long.bin", try_read)?;
    try_files::<THREE_PARTS, _, _, _>(&rt, *b"write-00.bin", "write-long.bin", try_write)?;
    try_files::<FOUR_PARTS, _, _, _>(&rt, *b"print-00.bin", "print-long.bin", try_print)?;
    try_files::<FOUR_PARTS, _, _, _>(&rt, *b"explain-00.bin", "explain-long.bin", try_explain)?;
    try_files::<TWO_PARTS, _, _, _>(&rt, *b"locate-00.bin", "locate-long.bin", try_locate)?;
    try_files::<THREE_PARTS, _, _, _>(&rt, *b"build-00.bin", "build-long.bin", try_build)
}
