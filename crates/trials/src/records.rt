// The records of the vector files (sim/README.md, 'Vector files'), a function a kind: it takes the parts in their
// order, makes the call, and compares the answer and every byte of each lent buffer with what the record says. Where
// all agree it returns the number of the answer.
use crate::parts::{Records, WORDS, copy, fill};
use loader::{
    m7700_build_marks, m7700_check, m7700_explain, m7700_locate, m7700_print, m7700_read_list,
    m7700_run, m7700_step, m7700_write_list,
};

// The value of every mark before a read, and of every byte of the page before it is written on.
const UNREAD: u8 = 0x5A;

const UNWRITTEN: u8 = 0xA5;

// Of every place before addresses are located.
const UNPLACED: u32 = 0xA5A5_A5A5;

// What a record shows: the number of its answer, or nothing where the call did something else.
pub(crate) type Trial = Option<usize>;

// An answer's number, its low byte.
fn number_of(answer: u64) -> usize {
    (answer % 256) as usize
}

// A check and its answer.
pub(crate) fn try_check(records: &mut Records, room: &mut [u8]) -> Trial {
    let base = records.take_u32();
    let reset = records.take_u32();
    let (image, room) = records.take_whole(room);
    let (marks, _) = records.take_whole(room);
    let answer = records.take_u32();
    let agrees = m7700_check(image, marks, base, reset) == answer;
    agrees.then_some((answer / 65_536) as usize)
}

// A step. A record of a step asks for one.
pub(crate) fn try_step(records: &mut Records, room: &mut [u8]) -> Trial {
    try_machine(records, room, |image, base, steps, state, ram| {
        (steps == 1).then(|| m7700_step(image, base, state, ram))
    })
}

// A run.
pub(crate) fn try_run(records: &mut Records, room: &mut [u8]) -> Trial {
    try_machine(records, room, |image, base, steps, state, ram| {
        Some(m7700_run(image, base, state, ram, steps))
    })
}

// What the machine does with an image, its base, a number of steps, a state and RAM.
fn try_machine<F>(records: &mut Records, room: &mut [u8], machine: F) -> Trial
where
    F: FnOnce(&[u8], u32, u32, &mut [u8], &mut [u8]) -> Option<u64>,
    requires { F.IsAlwaysCallable machine }
{
    let base = records.take_u32();
    let steps = records.take_u32();
    let (image, room) = records.take_whole(room);
    let (state, room) = records.take_buffer(room);
    let (ram, room) = records.take_buffer(room);
    let answer = records.take_u64();
    let (state_after, room) = copy(room, state);
    let (ram_after, _) = copy(room, ram);
    records.take_pieces(state_after);
    records.take_pieces(ram_after);
    let given = machine(image, base, steps, state, ram);
    let agrees = given == Some(answer) && *state == *state_after && *ram == *ram_after;
    agrees.then_some(run_number(answer))
}

// A run's number is its refusal's or, where it has none, its end's.
fn run_number(answer: u64) -> usize {
    match number_of(answer) {
        0 => number_of(answer / 256),
        refusal => refusal,
    }
}

// A list read, and the marks that it leaves.
pub(crate) fn try_read(records: &mut Records, room: &mut [u8]) -> Trial {
    let text = records.take_bytes();
    let size = records.take_u32() as usize;
    let answer = records.take_u64();
    let (marks, room) = fill(room, size, UNREAD);
    let (after, _) = fill(room, size, UNREAD);
    if number_of(answer) == 0 {
        records.take_after(after);
    }
    let given = m7700_read_list(text, marks);
    let agrees = marks.len() == size && given == answer && *marks == *after;
    agrees.then_some(number_of(answer))
}

// A list written.
pub(crate) fn try_write(records: &mut Records, room: &mut [u8]) -> Trial {
    let base = records.take_u32();
    let reset = records.take_u32();
    try_page(records, room, |marks, page| {
        m7700_write_list(marks, base, reset, page)
    })
}

// An image printed. It and the next are two functions, since a function of C is not passed by its name.
pub(crate) fn try_print(records: &mut Records, room: &mut [u8]) -> Trial {
    let base = records.take_u32();
    let reset = records.take_u32();
    let (image, room) = records.take_whole(room);
    try_page(records, room, |marks, page| {
        m7700_print(image, marks, base, reset, page)
    })
}

// A refusal explained.
pub(crate) fn try_explain(records: &mut Records, room: &mut [u8]) -> Trial {
    let base = records.take_u32();
    let reset = records.take_u32();
    let (image, room) = records.take_whole(room);
    try_page(records, room, |marks, page| {
        m7700_explain(image, marks, base, reset, page)
    })
}

// What is written of marks, and the page that it leaves.
fn try_page<F>(records: &mut Records, room: &mut [u8], write: F) -> Trial
where
    F: FnOnce(&[u8], &mut [u8]) -> u64,
    requires { F.IsAlwaysCallable write }
{
    let (marks, room) = records.take_whole(room);
    let size = records.take_u32() as usize;
    let answer = records.take_u64();
    let (page, room) = fill(room, size, UNWRITTEN);
    let (after, _) = fill(room, size, UNWRITTEN);
    if number_of(answer) == 0 {
        records.take_over(after, 0, (answer / 256) as usize);
    }
    let given = write(marks, page);
    let agrees = page.len() == size && given == answer && *page == *after;
    agrees.then_some(number_of(answer))
}

// Addresses located, and the places that it leaves.
pub(crate) fn try_locate(records: &mut Records, room: &mut [u8]) -> Trial {
    let base = records.take_u32();
    let reset = records.take_u32();
    let (image, room) = records.take_whole(room);
    let (marks, _) = records.take_whole(room);
    let count = records.take_u32() as usize;
    let mut addresses = [0; WORDS];
    let addresses = &mut addresses[..count.min(WORDS)];
    records.take_words(addresses, count);
    let size = records.take_u32() as usize;
    let answer = records.take_u64();
    let mut places = [UNPLACED; WORDS];
    let places = &mut places[..size.min(WORDS)];
    let mut after = [UNPLACED; WORDS];
    let after = &mut after[..size.min(WORDS)];
    if number_of(answer) == 0 {
        records.take_words(after, count);
    }
    let given = m7700_locate(image, marks, base, reset, addresses, places);
    let agrees = places.len() == size && given == answer && *places == *after;
    agrees.then_some(number_of(answer))
}

// Marks built from a routine list, and those that it leaves.
pub(crate) fn try_build(records: &mut Records, room: &mut [u8]) -> Trial {
    let base = records.take_u32();
    let reset = records.take_u32();
    let (image, room) = records.take_whole(room);
    let routines = records.take_bytes();
    let (marks, room) = records.take_whole(room);
    let answer = records.take_u64();
    let (after, _) = copy(room, marks);
    if number_of(answer) == 0 {
        records.take_after(after);
    }
    let given = m7700_build_marks(image, base, reset, routines, marks);
    let agrees = given == answer && *marks == *after;
    agrees.then_some(number_of(answer))
}
