// The parts of a code map entry: what the manual and document 01 say of a code, whatever the image.

ghost use Rattle.std.specs.Prelude.{◌≡◌};
ghost use Rattle.types.specs.Kinds.{kind_number};

// The manual's 103 instructions by mnemonic (4.2), and what stands at a code that it leaves unassigned.
#[derive(Clone, Copy)]
pub enum Operation {
    Unassigned,
    ADC,
    AND,
    ASL,
    BBC,
    BBS,
    BCC,
    BCS,
    BEQ,
    BMI,
    BNE,
    BPL,
    BRA,
    BRK,
    BVC,
    BVS,
    CLB,
    CLC,
    CLI,
    CLM,
    CLP,
    CLV,
    CMP,
    CPX,
    CPY,
    DEC,
    DEX,
    DEY,
    DIV,
    EOR,
    INC,
    INX,
    INY,
    JMP,
    JSR,
    LDA,
    LDM,
    LDT,
    LDX,
    LDY,
    LSR,
    MPY,
    MVN,
    MVP,
    NOP,
    ORA,
    PEA,
    PEI,
    PER,
    PHA,
    PHB,
    PHD,
    PHG,
    PHP,
    PHT,
    PHX,
    PHY,
    PLA,
    PLB,
    PLD,
    PLP,
    PLT,
    PLX,
    PLY,
    PSH,
    PUL,
    RLA,
    ROL,
    ROR,
    RTI,
    RTL,
    RTS,
    SBC,
    SEB,
    SEC,
    SEI,
    SEM,
    SEP,
    STA,
    STP,
    STX,
    STY,
    TAD,
    TAS,
    TAX,
    TAY,
    TBD,
    TBS,
    TBX,
    TBY,
    TDA,
    TDB,
    TSA,
    TSB,
    TSX,
    TXA,
    TXB,
    TXS,
    TXY,
    TYA,
    TYB,
    TYX,
    WIT,
    XAB,
}

// The manual's 28 addressing modes (3.2).
#[derive(Clone, Copy)]
pub enum Mode {
    Implied,
    Immediate,
    Accumulator,
    Direct,
    DirectBit,
    DirectIndexedX,
    DirectIndexedY,
    DirectIndirect,
    DirectIndexedXIndirect,
    DirectIndirectIndexedY,
    DirectIndirectLong,
    DirectIndirectLongIndexedY,
    Absolute,
    AbsoluteBit,
    AbsoluteIndexedX,
    AbsoluteIndexedY,
    AbsoluteLong,
    AbsoluteLongIndexedX,
    AbsoluteIndirect,
    AbsoluteIndirectLong,
    AbsoluteIndexedXIndirect,
    Stack,
    Relative,
    DirectBitRelative,
    AbsoluteBitRelative,
    StackPointerRelative,
    StackPointerRelativeIndirectIndexedY,
    BlockTransfer,
}

// The accumulator that the assembler syntax names as an operand. Here and in four enums below the first value stands for
// none, as 0 does in a packed entry: an Option would wrap each of the others wherever the code map names one.
#[derive(Clone, Copy)]
pub enum Accumulator {
    Unnamed,
    A,
    B,
}

// How a routine returns: mark kinds 1 and 2 of document 01.
#[derive(Clone, Copy)]
pub enum Kind {
    ByRts = 1,
    ByRtl = 2,
}

// The kind as a mark has it.
impl From<Kind> for u8 {
    ghost from_gives = { λ kind number. number ≡ kind_number kind };

    fn from(kind: Kind) -> u8 {
        kind as u8
    }
}

// Where control goes: to the next instruction; there or to the target; to the target alone; into a
// routine that returns by a kind; back from one; nowhere.
#[derive(Clone, Copy)]
pub enum Flow {
    Next,
    Branch,
    Jump,
    Call(Kind),
    Return(Kind),
    Halt,
}

// The form of the target in the operand: a signed offset of 8 or 16 bits, a 16-bit address in the bank just after the
// instruction, a 24-bit address.
#[derive(Clone, Copy)]
pub enum Target {
    NoTarget,
    Offset8,
    Offset16,
    Address16,
    Address24,
}

// What the instruction does to the widths m and x: SEM, CLM, SEP, CLP, or nothing.
#[derive(Clone, Copy)]
pub enum WidthEffect {
    KeepWidths,
    SetM,
    ClearM,
    SetBits,
    ClearBits,
}

// How the length hangs on the widths: not, one byte more at m=0, one byte more at x=0.
#[derive(Clone, Copy)]
pub enum LengthRule {
    Fixed,
    MoreByM,
    MoreByX,
}

// The width of the data that is moved or worked on.
#[derive(Clone, Copy)]
pub enum DataWidth {
    NoData,
    ByM,
    ByX,
    Byte,
    Word,
}

// One entry of a code page. `bytes` is the length at m=1 and x=1, a prefix counted.
#[derive(Clone, Copy)]
pub struct Entry {
    pub operation: Operation,
    pub mode: Mode,
    pub accumulator: Accumulator,
    pub carried: bool,
    pub flow: Flow,
    pub target: Target,
    pub effect: WidthEffect,
    pub bytes: u8,
    pub rule: LengthRule,
    pub width: DataWidth,
}

// An instruction as decoded: its entry, its length, and the bytes after the code as one number, low byte first.
#[derive(Clone, Copy)]
pub struct Instruction {
    pub entry: Entry,
    pub length: u8,
    pub operand: u64,
}

// Why no instruction is read at a place of an image: the code there is not carried; or too few bytes are left to tell
// (a code, the code behind a prefix or an operand byte lies past the end).
#[derive(Clone, Copy)]
pub enum Undecoded {
    NotCarried,
    CutOff,
}

// What stands at a place of an image.
pub type Decoded = Result<Instruction, Undecoded>;
