// What the stepping machine works on: document 01, 'The machine'.

ghost use Rattle.std.specs.Prelude.{◌≡◌, ◌≤◌};
ghost use Rattle.types.specs.Runs.{stop_number};
ghost use Rattle.types.specs.Status.{status_of, number_of};
ghost use Rattle.prelude.specs.Choice.{bit};

use crate::code::Kind;

// The processor status register, a field for each flag and one for its high byte: the interrupt priority level, and
// above it five bits that are 0 in every state that a run takes (manual 2.9).
#[derive(Clone, Copy)]
pub struct Status {
    pub carry: bool,
    pub zero: bool,
    pub disable: bool,
    pub decimal: bool,
    pub x: bool,
    pub m: bool,
    pub overflow: bool,
    pub negative: bool,
    pub level: u8,
}

impl Status {
    pub const C: u16 = 1;

    pub const Z: u16 = 2;

    pub const I: u16 = 4;

    pub const D: u16 = 8;

    pub const X: u16 = 16;

    pub const M: u16 = 32;

    pub const V: u16 = 64;

    pub const N: u16 = 128;

    pub const LEVEL: u16 = 256;
}

// The status of a number.
impl From<u16> for Status {
    ghost from_gives = { λ number status. status ≡ status_of number };

    fn from(n: u16) -> Status {
        Status {
            carry: n / Status::C % 2 == 1,
            zero: n / Status::Z % 2 == 1,
            disable: n / Status::I % 2 == 1,
            decimal: n / Status::D % 2 == 1,
            x: n / Status::X % 2 == 1,
            m: n / Status::M % 2 == 1,
            overflow: n / Status::V % 2 == 1,
            negative: n / Status::N % 2 == 1,
            level: (n / Status::LEVEL) as u8,
        }
    }
}

// The number of a status.
impl From<Status> for u16 {
    ghost from_gives = { λ status number. number ≡ number_of status };

    fn from(status: Status) -> u16 {
        Status::C * u16::from(status.carry)
            + Status::Z * u16::from(status.zero)
            + Status::I * u16::from(status.disable)
            + Status::D * u16::from(status.decimal)
            + Status::X * u16::from(status.x)
            + Status::M * u16::from(status.m)
            + Status::V * u16::from(status.overflow)
            + Status::N * u16::from(status.negative)
            + Status::LEVEL * status.level as u16
    }
}

// The registers that hold data.
#[derive(Clone, Copy)]
pub struct Registers {
    pub a: u16,
    pub b: u16,
    pub x: u16,
    pub y: u16,
    pub s: u16,
    pub dpr: u16,
    pub dt: u8,
    pub status: Status,
}

// All registers, and how many calls are open.
#[derive(Clone, Copy)]
pub struct Core {
    pub registers: Registers,
    pub pc: u16,
    pub pg: u8,
    pub depth: usize,
}

// At most so many calls are open: 02's R-5.
pub const CALL_LIMIT: usize = 24;

// The place of an open call's kind in its record.
pub const RECORD_UNIT: u64 = 4_294_967_296;

// The state: the open calls stand in the first `depth` records, the first opened first, each as one number
// (semantics/specs/Step.antt, `call_record`).
#[derive(Clone, Copy)]
pub struct State {
    pub core: Core,
    pub calls: [u64; CALL_LIMIT],
}

// Why a step stopped: numbers 20 to 27 of document 01.
#[derive(Clone, Copy)]
pub enum Stop {
    Outside = 20,
    Uncarried,
    Halt,
    Unmapped,
    Astray,
    Deep,
    ImageStore,
    Decimal,
}

// The paper's number of a stop.
impl From<Stop> for u8 {
    ghost from_gives = { λ stop number. number ≡ stop_number stop };

    fn from(stop: Stop) -> u8 {
        stop as u8
    }
}

// What an operation asks of memory before it works: the data that its addressing mode names, if any; the same, to be
// added or subtracted; the address alone; data from the stack; a word of the direct page.
#[derive(Clone, Copy)]
pub enum OperandUse {
    Operand,
    Addend,
    Address,
    Pull,
    DirectWord,
}

// Where the data of an addressing mode lies: in memory; behind the code; in a register, if there is any.
#[derive(Clone, Copy)]
pub enum OperandPlace {
    Memory,
    Instruction,
    Register,
}

// Data, and where it lies if it lies in memory.
#[derive(Clone, Copy)]
pub struct Data {
    pub address: u32,
    pub value: u16,
}

// A byte to be stored.
#[derive(Clone, Copy)]
pub struct Store {
    pub address: u64,
    pub byte: u8,
}

// What a step does to the open calls.
#[derive(Clone, Copy)]
pub enum CallChange {
    Keep,
    Open { address: u32, kind: Kind },
    Close,
}

// A step that met no stop: whether it was a call.
#[derive(Clone, Copy)]
pub enum Completion {
    Ordinary,
    Call,
}

// How a step ended.
pub type StepAnswer = Result<Completion, Stop>;
