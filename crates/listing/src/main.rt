// Writes the listing of the code map: a line for each of the 768 entries (PAGE CODE WORD REGISTER MODE L00 L01 L10 L11
// CARRIED).
#![tactic(auto)]

ghost use Rattle.std.specs.Prelude.{◌<◌};

use codepages::packed_at;
use decoder::{entry_at, length_at};
use entries::operations::word_of;
use std::io;
use types::code::{Accumulator, Mode, Operation};

// The prefix of each page, -- for none.
const PREFIXES: [&str; 3] = ["--", "42", "89"];

// The accumulator that the syntax names, - for none.
fn register_of(accumulator: Accumulator) -> &'static str {
    match accumulator {
        Accumulator::Unnamed => "-",
        Accumulator::A => "A",
        Accumulator::B => "B",
    }
}

// Appendix B's symbol of a mode.
fn symbol_of(mode: Mode) -> &'static str {
    match mode {
        Mode::Implied => "IMP",
        Mode::Immediate => "IMM",
        Mode::Accumulator => "A",
        Mode::Direct => "DIR",
        Mode::DirectBit => "DIR,b",
        Mode::DirectIndexedX => "DIR,X",
        Mode::DirectIndexedY => "DIR,Y",
        Mode::DirectIndirect => "(DIR)",
        Mode::DirectIndexedXIndirect => "(DIR,X)",
        Mode::DirectIndirectIndexedY => "(DIR),Y",
        Mode::DirectIndirectLong => "L(DIR)",
        Mode::DirectIndirectLongIndexedY => "L(DIR),Y",
        Mode::Absolute => "ABS",
        Mode::AbsoluteBit => "ABS,b",
        Mode::AbsoluteIndexedX => "ABS,X",
        Mode::AbsoluteIndexedY => "ABS,Y",
        Mode::AbsoluteLong => "ABL",
        Mode::AbsoluteLongIndexedX => "ABL,X",
        Mode::AbsoluteIndirect => "(ABS)",
        Mode::AbsoluteIndirectLong => "L(ABS)",
        Mode::AbsoluteIndexedXIndirect => "(ABS,X)",
        Mode::Stack => "STK",
        Mode::Relative => "REL",
        Mode::DirectBitRelative => "DIR,b,REL",
        Mode::AbsoluteBitRelative => "ABS,b,REL",
        Mode::StackPointerRelative => "SR",
        Mode::StackPointerRelativeIndirectIndexedY => "(SR),Y",
        Mode::BlockTransfer => "BLK",
    }
}

// The line of a code of a page.
#[tactic(auto, using(instructions::proofs::CodeMap::bytes_at_most))]
fn say_line(rt: &impl Print, page: usize, code: u8) -> io::Result<()>
    requires { page < 3 }
{
    let prefix = PREFIXES[page];
    let entry = entry_at(page, code);
    if matches!(entry.operation, Operation::Unassigned) {
        return println!(rt; "{prefix} {code:02X} - - - 0 0 0 0 no");
    }
    let number = packed_at(page, code);
    let [first, second, third] = word_of(number).map(char::from);
    let register = register_of(entry.accumulator);
    let symbol = symbol_of(entry.mode);
    let carried = if entry.carried { "yes" } else { "no" };
    println!(rt;
        "{prefix} {code:02X} {first}{second}{third} {register} {symbol} {} {} {} {} {carried}",
        length_at(entry, 0, 0),
        length_at(entry, 0, 1),
        length_at(entry, 1, 0),
        length_at(entry, 1, 1),
    )
}

// The three pages.
fn main(rt: HostRuntime) -> io::Result<()> {
    for page in 0..PREFIXES.len() {
        for code in 0..=255 {
            say_line(&rt, page, code)?;
        }
    }
    Ok(())
}
