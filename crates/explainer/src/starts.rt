// What is said of 5 to 10, which speak of the instruction at a start.
ghost use Rattle.std.specs.Prelude.{◌≡◌, ◌++◌, ◌+◌, ◌≤◌, ◌<◌, length};
ghost use Rattle.types.specs.Refusals.{refusal_number};
ghost use Rattle.reports.specs.Explanation as spec;
ghost use Rattle.codepages.specs.Packing.{unpacked};
ghost use Rattle.explainer.specs.Room.{HasRoom};
ghost use Rattle.explainer.specs.Said.{start_said, whole_said};

use crate::line::{ADDRESS_DIGITS, Line};
use crate::numbers::{is_inside, put_no_start};
use crate::owed::{
    first_with_other_mark, first_without_start, is_free, requirement_at, return_kind,
};
use checker::owed::owed_there;
use checker::start::first_start;
use codepages::packed_at;
use decoder::{length_of, page_of};
use entries::flow_of;
use fields::byte_at;
use image::marks::{mark_kind, mark_m, mark_x, return_m, return_x};
use places::place::{InstructionAt, Marks, Place};
use types::code::{Flow, Undecoded};
use types::refusals::Refusal;
use types::rules::Requirements;

// Adds a start: its address, its bytes and its word, by the number of its entry.
#[tactic(auto, unfolding(reports::specs::Explanation::start_text))]
fn put_start(line: &mut Line, address: u32, bytes: &[u8], number: u32)
    requires { HasRoom line.old (spec.start_text address bytes.now (unpacked number)) }
    ensures { line.new ≡ line.old ++ spec.start_text address bytes.now (unpacked number) }
{
    line.push_hex(ADDRESS_DIGITS, address);
    line.push_pairs(bytes);
    line.push_word(number);
}

// How many bytes stand before the code.
fn prefix_of(bytes: &[u8]) -> usize
    ensures { (result ≡ spec.prefix_of bytes.now) × (result ≤ 1) }
{
    if page_of(byte_at(bytes, 0)) == 0 {
        0
    } else {
        1
    }
}

// The number of the code's entry.
#[tactic(auto, using(codepages::proofs::Unpacked::unpacked_at))]
fn code_number(bytes: &[u8]) -> u32
    ensures { unpacked result ≡ spec.code_entry bytes.now }
{
    let page = page_of(byte_at(bytes, 0));
    packed_at(page, byte_at(bytes, prefix_of(bytes)))
}

// 5: prefix and code of what is not carried.
#[tactic(auto, unfolding(reports::specs::Explanation::code_text))]
fn put_code(line: &mut Line, address: u32, bytes: &[u8])
    requires code { spec.prefix_of bytes.now < length bytes.now }
    requires room { HasRoom line.old (spec.code_text address bytes.now) }
    ensures { line.new ≡ line.old ++ spec.code_text address bytes.now }
{
    let size = prefix_of(bytes) + 1;
    put_start(line, address, &bytes[..size], code_number(bytes));
    line.push_text(b"not carried");
}

// 6: how many bytes are missing, or that the code is.
#[tactic(auto, unfolding(reports::specs::Explanation::cut_off_text))]
fn put_cut_off(line: &mut Line, address: u32, bytes: &[u8], mark: u8)
    requires { HasRoom line.old (spec.cut_off_text address bytes.now mark) }
    ensures { line.new ≡ line.old ++ spec.cut_off_text address bytes.now mark }
{
    if prefix_of(bytes) < bytes.len() {
        let number = code_number(bytes);
        let size = length_of(number, mark_m(mark), mark_x(mark)) as usize;
        put_start(line, address, bytes, number);
        line.push_decimal(size.saturating_sub(bytes.len()) as u64);
        line.push_text(b" missing");
    } else {
        line.push_hex(ADDRESS_DIGITS, address);
        line.push_pairs(bytes);
        line.push_text(b": the code is missing");
    }
}

// 7: the address of the lowest start inside an instruction of so many bytes.
#[tactic(auto, unfolding(reports::specs::Explanation::overlap_text))]
fn put_overlap(line: &mut Line, marks: &Marks, at: usize, size: u8)
    requires inside { at < length marks.now.bytes.now }
    requires short { size ≤ 6 }
    requires room { HasRoom line.old (spec.overlap_text marks.now.bytes.now marks.now.base at size) }
    ensures { line.new ≡ line.old ++ spec.overlap_text marks.now.bytes.now marks.now.base at size }
{
    let inside = first_start(marks.bytes, at + 1, size.saturating_sub(1) as usize);
    line.push_hex(ADDRESS_DIGITS, marks.base + inside as u32);
    line.push_text(b" starts inside it");
}

// 8: the address that is no marked start, and whether it lies outside the image.
#[tactic(auto, unfolding(reports::specs::Explanation::flow_at, reports::specs::Explanation::flow_text))]
fn put_flow(line: &mut Line, marks: &Marks, owed: Requirements)
    requires { HasRoom line.old (spec.flow_at marks.now.bytes.now marks.now.base owed) }
    ensures { line.new ≡ line.old ++ spec.flow_at marks.now.bytes.now marks.now.base owed }
{
    let k = first_without_start(marks, owed);
    let named = requirement_at(owed, k);
    line.push_hex(ADDRESS_DIGITS, named.address);
    line.push_text(b" is ");
    put_no_start(line, is_inside(marks, named.address));
}

// 9: the address, the mark that must stand there and the one that does.
#[tactic(auto, unfolding(reports::specs::Explanation::widths_at, reports::specs::Explanation::widths_text))]
fn put_widths(line: &mut Line, marks: &Marks, flow: Flow, owed: Requirements)
    requires { HasRoom line.old (spec.widths_at marks.now.bytes.now marks.now.base flow owed) }
    ensures { line.new ≡ line.old ++ spec.widths_at marks.now.bytes.now marks.now.base flow owed }
{
    let k = first_with_other_mark(marks, owed);
    let named = requirement_at(owed, k);
    line.push_hex(ADDRESS_DIGITS, named.address);
    line.push_text(b" must be ");
    line.push_fields(is_free(flow, k), named.mark);
    line.push_text(b", is ");
    line.push_fields(false, marks.mark_at(named.address));
}

// 10: the kind and the widths there, and those that are marked.
#[tactic(auto, unfolding(reports::specs::Explanation::return_text))]
fn put_return(line: &mut Line, kind: u8, mark: u8)
    requires { HasRoom line.old (spec.return_text kind mark) }
    ensures { line.new ≡ line.old ++ spec.return_text kind mark }
{
    line.push_text(b"returns ");
    line.push_kind_widths(kind, mark_m(mark), mark_x(mark));
    line.push_text(b", is marked ");
    line.push_kind_widths(mark_kind(mark), return_m(mark), return_x(mark));
}

// 7 to 10: what stands behind the word of an instruction.
#[tactic(auto, unfolding(reports::specs::Explanation::whole_detail))]
fn put_whole(line: &mut Line, i: &InstructionAt, why: Refusal)
    requires { HasRoom line.old (whole_said i.now (refusal_number why)) }
    ensures { line.new ≡ line.old ++ whole_said i.now (refusal_number why) }
{
    let marks = &i.place.marks;
    let flow = flow_of(i.layout.number);
    match why {
        Refusal::Overlap => put_overlap(line, marks, i.place.at, i.layout.length),
        Refusal::Flow => put_flow(line, marks, owed_there(i)),
        Refusal::Widths => put_widths(line, marks, flow, owed_there(i)),
        _ => put_return(line, return_kind(flow), i.place.mark()),
    }
}

// 5 to 10, by what stands at a start.
#[tactic(auto, using(crate::proofs::Decoding::uncarried_code), unfolding(reports::specs::Explanation::start_detail))]
pub(crate) fn put_at_start(line: &mut Line, place: &Place, why: Refusal)
    requires { HasRoom line.old (start_said place.now (refusal_number why)) }
    ensures { line.new ≡ line.old ++ start_said place.now (refusal_number why) }
{
    let address = place.address().number();
    match place.instruction() {
        Err(Undecoded::NotCarried) => put_code(line, address, place.bytes()),
        Err(Undecoded::CutOff) => put_cut_off(line, address, place.bytes(), place.mark()),
        Ok(instruction) => {
            let layout = instruction.layout;
            let bytes = &place.bytes()[..layout.length as usize];
            put_start(line, address, bytes, layout.number);
            put_whole(line, &instruction, why);
        }
    }
}
