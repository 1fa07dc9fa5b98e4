// The task of each operation by its number (actions::tasks), a line an operation: a constant is what a part of the task
// adds to the number.
ghost use Rattle.std.specs.Prelude.{◌≡◌};
ghost use Rattle.codepages.specs.Packing.{unpacked};
ghost use Rattle.operations.specs.Table.{column_of, part, Does, Tasked};

use actions::tasks::{
    ACCESS, ADD, AND, BRANCH, BRANCH_BITS, CHANGE_BITS, CHANGE_FLAGS, CHOICE, COMPARE, COUNT,
    DESTINATION, EXCLUSIVE_OR, LEAVE, LOAD, MODIFY, MOVE, OR, PULL, PULL_WHOLE, PUSH, ROTATE,
    STORE, SUBTRACT, SWAP, TRANSFER,
};

// What is loaded, moved, stored or pushed, where it is not the data: a register; the operand, the next address and the
// operand, the program bank, the immediate data behind an address, DT, PS.
const FROM_A: u32 = 16 * CHOICE;

const FROM_B: u32 = 17 * CHOICE;

const FROM_X: u32 = 18 * CHOICE;

const FROM_Y: u32 = 19 * CHOICE;

const FROM_S: u32 = 20 * CHOICE;

const FROM_DPR: u32 = 21 * CHOICE;

const OPERAND: u32 = 1 * CHOICE;

const RELATIVE: u32 = 2 * CHOICE;

const PROGRAM_BANK: u32 = 3 * CHOICE;

const BEHIND: u32 = 4 * CHOICE;

const DATA_BANK: u32 = 5 * CHOICE;

const STATUS: u32 = 6 * CHOICE;

// Data modified where it came from: in which way.
const SHIFT_LEFT: u32 = MODIFY;

const SHIFT_RIGHT: u32 = MODIFY + CHOICE;

const ROTATE_LEFT: u32 = MODIFY + 2 * CHOICE;

const ROTATE_RIGHT: u32 = MODIFY + 3 * CHOICE;

const INCREMENT: u32 = MODIFY + 4 * CHOICE;

const DECREMENT: u32 = MODIFY + 5 * CHOICE;

// Other choices: to count down, the flag of a branch, the flag that is changed where it is not by the data, N and Z of
// what is pulled.
const DOWN: u32 = CHOICE;

const CARRY: u32 = 0 * CHOICE;

const ZERO: u32 = CHOICE;

const OVERFLOW: u32 = 6 * CHOICE;

const NEGATIVE: u32 = 7 * CHOICE;

const MASK_C: u32 = CHOICE;

const MASK_I: u32 = 2 * CHOICE;

const MASK_V: u32 = 3 * CHOICE;

const FLAGGED: u32 = CHOICE;

// The register that is put; that flags or bits are to be 1.
const TO_A: u32 = 0 * DESTINATION;

const TO_B: u32 = 1 * DESTINATION;

const TO_X: u32 = 2 * DESTINATION;

const TO_Y: u32 = 3 * DESTINATION;

const TO_S: u32 = 4 * DESTINATION;

const TO_DPR: u32 = 5 * DESTINATION;

const TO_DT: u32 = 6 * DESTINATION;

const SET: u32 = DESTINATION;

// The accumulator that the entry names: A, and what B adds to that stands above 16 bits.
const B_ADDS: u32 = 65_536;

const FROM_NAMED: u32 = FROM_A + B_ADDS * CHOICE;

const TO_NAMED: u32 = TO_A + B_ADDS * DESTINATION;

// What is asked of memory.
const ADDEND: u32 = ACCESS;

const ADDRESS: u32 = 2 * ACCESS;

const STACK: u32 = 3 * ACCESS;

const DIRECT_WORD: u32 = 4 * ACCESS;

// A number for each operation: its task where its entry names A or no accumulator, and what is added where it names B.
pub type TaskTable = [u32; 128];

// The tasks by operation.
static TASKS: TaskTable = [
    LEAVE, // Unassigned
    ADD + TO_NAMED + ADDEND, // ADC
    AND + TO_NAMED, // AND
    SHIFT_LEFT + TO_NAMED, // ASL
    BRANCH_BITS, // BBC
    BRANCH_BITS + SET, // BBS
    BRANCH + CARRY, // BCC
    BRANCH + CARRY + SET, // BCS
    BRANCH + ZERO + SET, // BEQ
    BRANCH + NEGATIVE + SET, // BMI
    BRANCH + ZERO, // BNE
    BRANCH + NEGATIVE, // BPL
    LEAVE, // BRA
    LEAVE, // BRK
    BRANCH + OVERFLOW, // BVC
    BRANCH + OVERFLOW + SET, // BVS
    CHANGE_BITS, // CLB
    CHANGE_FLAGS + MASK_C, // CLC
    CHANGE_FLAGS + MASK_I, // CLI
    LEAVE, // CLM
    CHANGE_FLAGS, // CLP
    CHANGE_FLAGS + MASK_V, // CLV
    COMPARE + TO_NAMED, // CMP
    COMPARE + TO_X, // CPX
    COMPARE + TO_Y, // CPY
    DECREMENT + TO_NAMED, // DEC
    COUNT + DOWN + TO_X, // DEX
    COUNT + DOWN + TO_Y, // DEY
    LEAVE, // DIV
    EXCLUSIVE_OR + TO_NAMED, // EOR
    INCREMENT + TO_NAMED, // INC
    COUNT + TO_X, // INX
    COUNT + TO_Y, // INY
    LEAVE, // JMP
    LEAVE, // JSR
    LOAD + TO_NAMED, // LDA
    STORE + BEHIND + ADDRESS, // LDM
    MOVE + TO_DT, // LDT
    LOAD + TO_X, // LDX
    LOAD + TO_Y, // LDY
    SHIFT_RIGHT + TO_NAMED, // LSR
    LEAVE, // MPY
    LEAVE, // MVN
    LEAVE, // MVP
    LEAVE, // NOP
    OR + TO_NAMED, // ORA
    PUSH + OPERAND, // PEA
    PUSH + DIRECT_WORD, // PEI
    PUSH + RELATIVE, // PER
    PUSH + FROM_A, // PHA
    PUSH + FROM_B, // PHB
    PUSH + FROM_DPR, // PHD
    PUSH + PROGRAM_BANK, // PHG
    PUSH + STATUS, // PHP
    PUSH + DATA_BANK, // PHT
    PUSH + FROM_X, // PHX
    PUSH + FROM_Y, // PHY
    PULL + TO_A + STACK, // PLA
    PULL + TO_B + STACK, // PLB
    PULL_WHOLE + TO_DPR + STACK, // PLD
    LEAVE, // PLP
    PULL_WHOLE + FLAGGED + TO_DT + STACK, // PLT
    PULL + TO_X + STACK, // PLX
    PULL + TO_Y + STACK, // PLY
    LEAVE, // PSH
    LEAVE, // PUL
    ROTATE + TO_A, // RLA
    ROTATE_LEFT + TO_NAMED, // ROL
    ROTATE_RIGHT + TO_NAMED, // ROR
    LEAVE, // RTI
    LEAVE, // RTL
    LEAVE, // RTS
    SUBTRACT + TO_NAMED + ADDEND, // SBC
    CHANGE_BITS + SET, // SEB
    CHANGE_FLAGS + MASK_C + SET, // SEC
    CHANGE_FLAGS + MASK_I + SET, // SEI
    LEAVE, // SEM
    CHANGE_FLAGS + SET, // SEP
    STORE + FROM_NAMED + ADDRESS, // STA
    LEAVE, // STP
    STORE + FROM_X + ADDRESS, // STX
    STORE + FROM_Y + ADDRESS, // STY
    MOVE + FROM_A + TO_DPR, // TAD
    MOVE + FROM_A + TO_S, // TAS
    TRANSFER + FROM_A + TO_X, // TAX
    TRANSFER + FROM_A + TO_Y, // TAY
    MOVE + FROM_B + TO_DPR, // TBD
    MOVE + FROM_B + TO_S, // TBS
    TRANSFER + FROM_B + TO_X, // TBX
    TRANSFER + FROM_B + TO_Y, // TBY
    LOAD + FROM_DPR + TO_A, // TDA
    LOAD + FROM_DPR + TO_B, // TDB
    LOAD + FROM_S + TO_A, // TSA
    LOAD + FROM_S + TO_B, // TSB
    TRANSFER + FROM_S + TO_X, // TSX
    LOAD + FROM_X + TO_A, // TXA
    LOAD + FROM_X + TO_B, // TXB
    MOVE + FROM_X + TO_S, // TXS
    TRANSFER + FROM_X + TO_Y, // TXY
    LOAD + FROM_Y + TO_A, // TYA
    LOAD + FROM_Y + TO_B, // TYB
    TRANSFER + FROM_Y + TO_X, // TYX
    LEAVE, // WIT
    SWAP, // XAB
    LEAVE, // no operation, from here on
    LEAVE,
    LEAVE,
    LEAVE,
    LEAVE,
    LEAVE,
    LEAVE,
    LEAVE,
    LEAVE,
    LEAVE,
    LEAVE,
    LEAVE,
    LEAVE,
    LEAVE,
    LEAVE,
    LEAVE,
    LEAVE,
    LEAVE,
    LEAVE,
    LEAVE,
    LEAVE,
    LEAVE,
    LEAVE,
    LEAVE,
];

// By which numbers the tasks are kept is left open; each does what its operation does, and no more is asked of it.
pub fn tasks() -> &'static TaskTable
    ensures { Tasked result.now }
{
    &TASKS
}

// The task of an operation's two that an entry has.
fn named(both: u32, n: u32) -> u32
    ensures { result ≡ part (column_of n) both }
{
    let with_a = both % 65_536;
    if n / 4_096 % 4 == 2 {
        with_a + both / 65_536
    } else {
        with_a
    }
}

// The task of an entry, its number left open likewise.
#[tactic(auto, unfolding(crate::specs::Table::Tasked))]
pub fn task_at(n: u32) -> u32
    ensures { Does (unpacked n).accumulator (unpacked n).operation result }
{
    named(tasks()[(n % 128) as usize], n)
}
