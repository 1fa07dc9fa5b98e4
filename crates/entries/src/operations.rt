// The operation of an entry, and its words for whoever prints instructions.
ghost use Rattle.std.specs.Prelude.{◌≡◌};
ghost use Rattle.prelude.specs.Choice.{pick};
ghost use Rattle.codepages.specs.Packing.{unpacked};
ghost use Rattle.instructions.specs.Words.{blank, flush_left, word_of, is_long, syntax_word};

use types::code::Operation;

// The manual's operations, and the one of an unassigned code.
const COUNT: usize = 104;

// In the order of their numbers.
const OPERATIONS: [Operation; COUNT] = [
    Operation::Unassigned,
    Operation::ADC,
    Operation::AND,
    Operation::ASL,
    Operation::BBC,
    Operation::BBS,
    Operation::BCC,
    Operation::BCS,
    Operation::BEQ,
    Operation::BMI,
    Operation::BNE,
    Operation::BPL,
    Operation::BRA,
    Operation::BRK,
    Operation::BVC,
    Operation::BVS,
    Operation::CLB,
    Operation::CLC,
    Operation::CLI,
    Operation::CLM,
    Operation::CLP,
    Operation::CLV,
    Operation::CMP,
    Operation::CPX,
    Operation::CPY,
    Operation::DEC,
    Operation::DEX,
    Operation::DEY,
    Operation::DIV,
    Operation::EOR,
    Operation::INC,
    Operation::INX,
    Operation::INY,
    Operation::JMP,
    Operation::JSR,
    Operation::LDA,
    Operation::LDM,
    Operation::LDT,
    Operation::LDX,
    Operation::LDY,
    Operation::LSR,
    Operation::MPY,
    Operation::MVN,
    Operation::MVP,
    Operation::NOP,
    Operation::ORA,
    Operation::PEA,
    Operation::PEI,
    Operation::PER,
    Operation::PHA,
    Operation::PHB,
    Operation::PHD,
    Operation::PHG,
    Operation::PHP,
    Operation::PHT,
    Operation::PHX,
    Operation::PHY,
    Operation::PLA,
    Operation::PLB,
    Operation::PLD,
    Operation::PLP,
    Operation::PLT,
    Operation::PLX,
    Operation::PLY,
    Operation::PSH,
    Operation::PUL,
    Operation::RLA,
    Operation::ROL,
    Operation::ROR,
    Operation::RTI,
    Operation::RTL,
    Operation::RTS,
    Operation::SBC,
    Operation::SEB,
    Operation::SEC,
    Operation::SEI,
    Operation::SEM,
    Operation::SEP,
    Operation::STA,
    Operation::STP,
    Operation::STX,
    Operation::STY,
    Operation::TAD,
    Operation::TAS,
    Operation::TAX,
    Operation::TAY,
    Operation::TBD,
    Operation::TBS,
    Operation::TBX,
    Operation::TBY,
    Operation::TDA,
    Operation::TDB,
    Operation::TSA,
    Operation::TSB,
    Operation::TSX,
    Operation::TXA,
    Operation::TXB,
    Operation::TXS,
    Operation::TXY,
    Operation::TYA,
    Operation::TYB,
    Operation::TYX,
    Operation::WIT,
    Operation::XAB,
];

// Their words, 16 a row, with none behind the last.
const WORDS: [[u8; 64]; 8] = [
    *b"--- ADC AND ASL BBC BBS BCC BCS BEQ BMI BNE BPL BRA BRK BVC BVS ",
    *b"CLB CLC CLI CLM CLP CLV CMP CPX CPY DEC DEX DEY DIV EOR INC INX ",
    *b"INY JMP JSR LDA LDM LDT LDX LDY LSR MPY MVN MVP NOP ORA PEA PEI ",
    *b"PER PHA PHB PHD PHG PHP PHT PHX PHY PLA PLB PLD PLP PLT PLX PLY ",
    *b"PSH PUL RLA ROL ROR RTI RTL RTS SBC SEB SEC SEI SEM SEP STA STP ",
    *b"STX STY TAD TAS TAX TAY TBD TBS TBX TBY TDA TDB TSA TSB TSX TXA ",
    *b"TXB TXS TXY TYA TYB TYX WIT XAB --- --- --- --- --- --- --- --- ",
    *b"--- --- --- --- --- --- --- --- --- --- --- --- --- --- --- --- ",
];

// The operation that an entry's number keeps.
#[tactic(auto, unfolding(codepages::specs::Packing::unpacked))]
pub fn operation_of(n: u32) -> Operation
    ensures { result ≡ (unpacked n).operation }
{
    let k = (n % 128) as usize;
    match OPERATIONS.get(k) {
        Some(operation) => *operation,
        None => Operation::Unassigned,
    }
}

// Its mnemonic.
pub fn word_of(n: u32) -> [u8; 3]
    ensures { result ≡ word_of (unpacked n).operation }
{
    let k = (n % 128) as usize;
    let row = WORDS[k / 16];
    let at = k % 16 * 4;
    [row[at], row[at + 1], row[at + 2]]
}

// A bit for the number of each mode through a pointer of three bytes, 10, 11 and 19, and of each long target, 2 and 4.
const LONG_MODES: u32 = 0x80C00;

const LONG_TARGETS: u32 = 0x14;

// The form is a long one.
pub fn is_long(n: u32) -> bool
    ensures { result ≡ is_long (unpacked n) }
{
    let mode = n / 128 % 32;
    let target = n / 262_144 % 8;
    0 < (LONG_MODES >> mode) % 2 + (LONG_TARGETS >> target) % 2
}

// The letter behind the mnemonic, a blank for none.
fn last_letter(n: u32) -> u8
    ensures { result ≡ pick (is_long (unpacked n)) 0x4C blank }
{
    if is_long(n) { b'L' } else { b' ' }
}

// The first word of the form's syntax, in four columns.
pub fn syntax_word(n: u32) -> [u8; 4]
    ensures { result ≡ flush_left 4 (syntax_word (unpacked n)) }
{
    let word = word_of(n);
    [word[0], word[1], word[2], last_letter(n)]
}
