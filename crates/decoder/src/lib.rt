// The decoder: what stands at a place of an image, at given widths.
#![tactic(auto)]

ghost use Rattle.std.specs.Prelude.{◌≡◌, false, ◌-◌, ◌≤◌, ◌<◌, length, get_or, drop, eqb};
ghost use Rattle.prelude.specs.Choice.{pick};
ghost use Rattle.instructions.specs.CodeMap.{entry_at, more_bytes, length_at};
ghost use Rattle.instructions.specs.Decode as spec;
ghost use Rattle.codepages.specs.Packing.{packed_pages, packed_at, unpacked};
ghost use Rattle.decoder.specs.Layout.{layout_read, code_read, layout_by, instruction_of, Fitting};

use codepages::packed_at;
use entries::{bytes_of, is_carried, unpack};
use fields::{low_bytes, number, six_bytes};
use types::code::{Decoded, Entry, Instruction, LengthRule, Undecoded};

// What a code and the widths decide of an instruction, before its operand is read: the number of its entry, how many
// prefix bytes it has, its length. The entry stays packed, for most readers need one field (docs/DECISIONS.md, 'An entry
// is kept in one number').
#[derive(Clone, Copy)]
pub struct Layout {
    pub number: u32,
    pub prefix: u8,
    pub length: u8,
}

// The code at a place, before the widths enter: the number of its entry, and how many prefix bytes stand before it.
#[derive(Clone, Copy)]
pub struct Code {
    pub number: u32,
    pub prefix: u8,
}

// The entry of a code of a page.
#[tactic(auto, using(codepages::proofs::Unpacked::unpacked_at))]
pub fn entry_at(page: usize, code: u8) -> Entry
    requires { page < 3 }
    ensures { result ≡ entry_at page code }
{
    unpack(packed_at(page, code))
}

// One byte more at a width of 0.
fn at_zero(width: u8) -> u8
    ensures { result ≡ pick (eqb width 0) 1 0 }
{
    if width == 0 { 1 } else { 0 }
}

// The bytes that a length rule adds at the widths m and x.
fn more_bytes(rule: LengthRule, m: u8, x: u8) -> u8
    ensures { result ≡ more_bytes rule m x }
{
    match rule {
        LengthRule::Fixed => 0,
        LengthRule::MoreByM => at_zero(m),
        LengthRule::MoreByX => at_zero(x),
    }
}

// The length of a code at the widths m and x. Asks for one that a code can have, so that the sum is a byte.
pub fn length_at(entry: Entry, m: u8, x: u8) -> u8
    requires { entry.bytes ≤ 6 }
    ensures { result ≡ length_at entry m x }
{
    let rule = entry.rule;
    entry.bytes + more_bytes(rule, m, x)
}

// The length of the code that a number keeps. Two bits stand for the rules that add a byte; its own rule takes one.
#[tactic(auto, using(crate::proofs::Lengths::length_by_bits))]
pub fn length_of(number: u32, m: u8, x: u8) -> u8
    ensures { result ≡ length_at (unpacked number) m x }
{
    let more = 2 * at_zero(m) as u32 + 4 * at_zero(x) as u32;
    bytes_of(number) + ((more >> (number / 134_217_728 % 4)) % 2) as u8
}

// The layout of a carried code, where so many bytes are left.
fn fit(left: usize, code: Code, m: u8, x: u8) -> Result<Layout, Undecoded>
    ensures { result ≡ layout_by left (Ok code) m x }
{
    let Code { number, prefix } = code;
    let length = length_of(number, m, x);
    if left < length as usize {
        return Err(Undecoded::CutOff);
    }
    Ok(Layout {
        number,
        prefix,
        length,
    })
}

// The page that a first byte leads to.
pub fn page_of(first: u8) -> usize
    ensures { (result ≡ spec.page_of first) × (result < 3) }
{
    match first {
        0x42 => 1,
        0x89 => 2,
        _ => 0,
    }
}

// The code at a place whose first byte is no carried code of the first page.
fn code_behind_prefix(image: &[u8], at: usize) -> Result<Code, Undecoded>
    requires { (at < length image.now)
        × ((unpacked (packed_at packed_pages 0 (get_or image.now at 0))).carried ≡ false) }
    ensures { result ≡ code_read (drop at image.now) }
{
    let page = page_of(image[at]);
    if page == 0 {
        return Err(Undecoded::NotCarried);
    }
    if image.len() - at <= 1 {
        return Err(Undecoded::CutOff);
    }
    let number = packed_at(page, image[at + 1]);
    if !is_carried(number) {
        return Err(Undecoded::NotCarried);
    }
    Ok(Code { number, prefix: 1 })
}

// The code at a place. Most stand on the first page, where no prefix is a carried code.
#[tactic(auto, using(crate::proofs::Layouts::coded_plain))]
fn code_at(image: &[u8], at: usize) -> Result<Code, Undecoded>
    requires { at < length image.now }
    ensures { result ≡ code_read (drop at image.now) }
{
    let number = packed_at(0, image[at]);
    if is_carried(number) {
        return Ok(Code { number, prefix: 0 });
    }
    code_behind_prefix(image, at)
}

// The layout of what stands at a place of an image, at the widths m and x.
#[tactic(auto, using(crate::proofs::Layouts::layout_past, crate::proofs::Layouts::layout_at_lem))]
pub fn layout_at(image: &[u8], at: usize, m: u8, x: u8) -> Result<Layout, Undecoded>
    ensures { result ≡ layout_read (drop at image.now) m x }
{
    if image.len() <= at {
        return Err(Undecoded::CutOff);
    }
    fit(image.len() - at, code_at(image, at)?, m, x)
}

// The operand of a layout at a place of an image: the bytes behind the code as one number. Asks that the layout fits,
// as one that is read there does, so that no byte is tested.
pub fn operand_at(image: &[u8], at: usize, layout: Layout) -> u64
    requires { Fitting (length image.now - at) layout }
    ensures { (result ≡ spec.operand_of (drop at image.now) layout.prefix layout.length)
        × (result < 1_099_511_627_776) }
{
    let prefix = layout.prefix;
    let length = layout.length;
    let from = at + prefix as usize + 1;
    if from + 6 <= image.len() {
        return low_bytes(six_bytes(image, from), length - prefix - 1);
    }
    let end = at + length as usize;
    number(&image[from..end])
}

// The instruction of a layout at a place of an image.
fn instruction_at(image: &[u8], at: usize, layout: Layout) -> Instruction
    requires { Fitting (length image.now - at) layout }
    ensures { result ≡ instruction_of (drop at image.now) layout }
{
    Instruction {
        entry: unpack(layout.number),
        length: layout.length,
        operand: operand_at(image, at, layout),
    }
}

// What stands at a place of an image, at the widths m and x.
#[tactic(auto, using(crate::proofs::Layouts::decoded_layout))]
pub fn decode_at(image: &[u8], at: usize, m: u8, x: u8) -> Decoded
    ensures { result ≡ spec.decode (drop at image.now) m x }
{
    let layout = layout_at(image, at, m, x)?;
    Ok(instruction_at(image, at, layout))
}

// What the bytes begin with, at the widths m and x: the decoder as a whole, for users of the library.
pub fn decode(bytes: &[u8], m: u8, x: u8) -> Decoded
    ensures { result ≡ spec.decode bytes.now m x }
{
    decode_at(bytes, 0, m, x)
}
