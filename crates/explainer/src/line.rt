// A line of text as it is made, piece behind piece. Each piece asks for room, so that no byte is left out.
ghost use Rattle.std.specs.Prelude.{◌≡◌, [], ◌++◌, ◌<◌, ◌≤◌};
ghost use Rattle.codepages.specs.Packing.{unpacked};
ghost use Rattle.text.specs.Digits.{digits};
ghost use Rattle.reports.specs.Explanation as spec;
ghost use Rattle.explainer.specs.Room.{HasRoom};

use crate::LINE_LIMIT;
use entries::operations::{is_long, word_of};
use image::marks::{mark_kind, mark_m, mark_x, return_m, return_x};
use marklist::lines::kind_letter;
use std::marker::Model;
use text::bytes::put_bytes;
use text::digits::{InDigits, digit, digit_count, put_digits};

const BLANK: u8 = b' ';

// The most digits of a number of 64 bits.
const MOST_DIGITS: usize = 20;

// The digits of an address.
pub(crate) const ADDRESS_DIGITS: usize = 6;

// The buffer of a line, and how many of its bytes are written.
#[derive(Drop)]
pub(crate) struct Line {
    bytes: [u8; LINE_LIMIT],
    size: usize,
}

// Clauses see the bytes that are written.
impl Model for Line {
    ghost use Rattle.std.specs.Prelude.{ℕ, List, take, ◌≤◌};
    ghost use Rattle.reports.specs.Explanation.{line_limit};

    ghost Value = { List ℕ };

    ghost view = { λ l. take l.size l.bytes };

    ghost invariant = { λ l. l.size ≤ line_limit };
}

impl Line {
    pub(crate) fn new() -> Line
        ensures { result ≡ [] }
    {
        Line {
            bytes: [0; LINE_LIMIT],
            size: 0,
        }
    }

    // What is written.
    pub(crate) fn text(&self) -> &[u8]
        ensures { result.now ≡ self.now }
    {
        &self.bytes[..self.size]
    }

    // Adds a text.
    pub(crate) fn push_text(&mut self, text: &[u8])
        requires { HasRoom self.old text.now }
        ensures { self.new ≡ self.old ++ text.now }
    {
        put_bytes(&mut self.bytes[self.size..], text);
        self.size += text.len();
    }

    // Adds the last digits of a number, so many.
    #[tactic(auto, using(text::proofs::DigitLaws::length_digits, std::proofs::lemmas::Grind::common_steps))]
    fn push_digits<N: InDigits>(&mut self, radix: u32, count: usize, n: N)
        requires radix { (0 < radix) × (radix ≤ 36) }
        requires room { HasRoom self.old (digits radix count (N.number n)) }
        ensures { self.new ≡ self.old ++ digits radix count (N.number n) }
    {
        put_digits(&mut self.bytes[self.size..], radix, count, n);
        self.size += count;
    }

    // Adds the last hex digits of a number, so many.
    pub(crate) fn push_hex(&mut self, count: usize, n: u32)
        requires { HasRoom self.old (digits 16 count n) }
        ensures { self.new ≡ self.old ++ digits 16 count n }
    {
        self.push_digits(16, count, n);
    }

    // Adds a number in decimal.
    #[tactic(auto, unfolding(reports::specs::Explanation::decimal))]
    pub(crate) fn push_decimal(&mut self, n: u64)
        requires { HasRoom self.old (spec.decimal n) }
        ensures { self.new ≡ self.old ++ spec.decimal n }
    {
        self.push_digits(10, digit_count(10, MOST_DIGITS, n), n);
    }

    // Adds the fields of a mark.
    pub(crate) fn push_fields(&mut self, free: bool, mark: u8)
        requires { HasRoom self.old (spec.mark_fields free mark) }
        ensures { self.new ≡ self.old ++ spec.mark_fields free mark }
    {
        self.push_text(&mark_fields(free, mark));
    }

    // Adds a kind and two widths.
    pub(crate) fn push_kind_widths(&mut self, kind: u8, m: u8, x: u8)
        requires widths { (m ≤ 1) × (x ≤ 1) }
        requires room { HasRoom self.old (spec.kind_widths kind m x) }
        ensures { self.new ≡ self.old ++ spec.kind_widths kind m x }
    {
        self.push_text(&[kind_letter(kind), BLANK, digit(m), BLANK, digit(x)]);
    }

    // Adds the pairs of bytes.
    pub(crate) fn push_pairs(&mut self, bytes: &[u8])
        requires { HasRoom self.old (spec.pairs bytes.now) }
        ensures { self.new ≡ self.old ++ spec.pairs bytes.now }
    {
        for byte in bytes {
            self.push_text(b" ");
            self.push_hex(2, *byte as u32);
        }
    }

    // Adds the word of a form, by its entry's number, and the colon behind it.
    #[tactic(auto, unfolding(reports::specs::Explanation::word_text))]
    pub(crate) fn push_word(&mut self, number: u32)
        requires { HasRoom self.old (spec.word_text (unpacked number)) }
        ensures { self.new ≡ self.old ++ spec.word_text (unpacked number) }
    {
        self.push_text(b" ");
        self.push_text(&word_of(number));
        if is_long(number) {
            self.push_text(b"L");
        }
        self.push_text(b": ");
    }
}

// A return width, or a stroke where it is free.
fn return_field(free: bool, width: u8) -> u8
    requires { width ≤ 1 }
    ensures { result ≡ spec.return_field free width }
{
    if free { b'-' } else { digit(width) }
}

// The fields of a mark.
fn mark_fields(free: bool, mark: u8) -> [u8; 9]
    ensures { result ≡ spec.mark_fields free mark }
{
    let m = digit(mark_m(mark));
    let x = digit(mark_x(mark));
    let kind = kind_letter(mark_kind(mark));
    let rm = return_field(free, return_m(mark));
    let rx = return_field(free, return_x(mark));
    [m, BLANK, x, BLANK, kind, BLANK, rm, BLANK, rx]
}
