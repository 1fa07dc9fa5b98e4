// The archive for loaders written in C (include/m7700.h): each function is that of the crate loader and promises what
// that one does. A slice is a pointer and a length. A crate is a library or an archive, so that both are there.
#![tactic(auto)]

ghost use Rattle.std.specs.Prelude.{◌≡◌, ◌≤◌, length};
ghost use Rattle.semantics.specs.Memory.{memory};
ghost use Rattle.execution.specs.RunBytes.{ran_bytes};
ghost use Rattle.acceptance.specs.Verdict.{verdict};
ghost use Rattle.lists.specs.MarkList.{read_list, marks_read, write_list, page_written};
ghost use Rattle.lists.specs.Routines.{built, marks_built};
ghost use Rattle.reports.specs.PrintedPage.{printed, page_printed};
ghost use Rattle.reports.specs.Explanation.{line_limit, explanation, explained, page_explained};
ghost use Rattle.reports.specs.Locate.{located, places_located};
ghost use Rattle.packing.specs.Packed.{packed_verdict, packed_read, packed_written, packed_built, packed_printed};
ghost use Rattle.packing.specs.Packed.{packed_located, packed_run};

// The check.
#[unsafe(no_mangle)]
pub extern "C" fn m7700_check(image: &[u8], marks: &[u8], base: u32, reset: u32) -> u32
    ensures { result ≡ packed_verdict (verdict image.now marks.now base reset) }
{
    loader::m7700_check(image, marks, base, reset)
}

// The reader of mark lists.
#[unsafe(no_mangle)]
pub extern "C" fn m7700_read_list(text: &[u8], marks: &mut [u8]) -> u64
    ensures answer { result ≡ packed_read (read_list text.now marks.old) }
    ensures marks { marks.new ≡ marks_read text.now marks.old }
{
    loader::m7700_read_list(text, marks)
}

// The writer of mark lists.
#[unsafe(no_mangle)]
pub extern "C" fn m7700_write_list(marks: &[u8], base: u32, reset: u32, page: &mut [u8]) -> u64
    ensures answer { result ≡ packed_written (write_list marks.now base reset page.old) }
    ensures page { page.new ≡ page_written marks.now base reset page.old }
{
    loader::m7700_write_list(marks, base, reset, page)
}

// The builder of marks.
#[unsafe(no_mangle)]
pub extern "C" fn m7700_build_marks(
    image: &[u8],
    base: u32,
    reset: u32,
    routines: &[u8],
    marks: &mut [u8],
) -> u64
    ensures answer { result ≡ packed_built (built image.now base reset routines.now marks.old) }
    ensures marks { marks.new ≡ marks_built image.now base reset routines.now marks.old }
{
    loader::m7700_build_marks(image, base, reset, routines, marks)
}

// The printed page.
#[unsafe(no_mangle)]
pub extern "C" fn m7700_print(
    image: &[u8],
    marks: &[u8],
    base: u32,
    reset: u32,
    page: &mut [u8],
) -> u64
    ensures answer { result ≡ packed_printed (printed image.now marks.now base reset page.old) }
    ensures page { page.new ≡ page_printed image.now marks.now base reset page.old }
{
    loader::m7700_print(image, marks, base, reset, page)
}

// The line that says what the check's refusal is about.
#[unsafe(no_mangle)]
pub extern "C" fn m7700_explain(
    image: &[u8],
    marks: &[u8],
    base: u32,
    reset: u32,
    page: &mut [u8],
) -> u64
    ensures answer { result ≡ packed_printed (explained image.now marks.now base reset page.old) }
    ensures page { page.new ≡ page_explained image.now marks.now base reset page.old }
    ensures short { length (explanation image.now marks.now base reset) ≤ line_limit }
{
    loader::m7700_explain(image, marks, base, reset, page)
}

// Where addresses lie.
#[unsafe(no_mangle)]
pub extern "C" fn m7700_locate(
    image: &[u8],
    marks: &[u8],
    base: u32,
    reset: u32,
    addresses: &[u32],
    places: &mut [u32],
) -> u64
    ensures answer { result ≡ packed_located (located image.now marks.now base reset
        addresses.now places.old) }
    ensures places { places.new ≡ places_located image.now marks.now base reset
        addresses.now places.old }
{
    loader::m7700_locate(image, marks, base, reset, addresses, places)
}

// A run of the machine.
#[unsafe(no_mangle)]
pub extern "C" fn m7700_run(
    image: &[u8],
    base: u32,
    state: &mut [u8],
    ram: &mut [u8],
    steps: u32,
) -> u64
    ensures answer { result
        ≡ packed_run
        (ran_bytes (memory ram.old image.now base) state.old steps).answer }
    ensures state { state.new
        ≡ (ran_bytes (memory ram.old image.now base) state.old steps).state }
    ensures ram { ram.new
        ≡ (ran_bytes (memory ram.old image.now base) state.old steps).ram }
{
    loader::m7700_run(image, base, state, ram, steps)
}

// A step of the machine.
#[unsafe(no_mangle)]
pub extern "C" fn m7700_step(image: &[u8], base: u32, state: &mut [u8], ram: &mut [u8]) -> u64
    ensures answer { result ≡ packed_run (ran_bytes (memory ram.old image.now base) state.old 1).answer }
    ensures state { state.new
        ≡ (ran_bytes (memory ram.old image.now base) state.old 1).state }
    ensures ram { ram.new
        ≡ (ran_bytes (memory ram.old image.now base) state.old 1).ram }
{
    loader::m7700_step(image, base, state, ram)
}
