// A task in one number: its action, the action's choice, the register that is put, and what is asked of memory, side by
// side, so that the machine's step chooses among actions and not among operations. specs/Tasks.antt says where each
// field stands and what it means.
ghost use Rattle.std.specs.Prelude.{◌≡◌, ◌<◌};
ghost use Rattle.actions.specs.Tasks.{unpacked_task};

use types::machine::OperandUse;

// What is done, in alphabetical order: in the order of the numbers LLVM clamps a task's number to make an action of it,
// and jumps by the action, some 10 instructions a step; in this one it jumps by the number.
#[derive(Clone, Copy)]
pub enum Action {
    Add,
    And,
    Branch,
    BranchBits,
    ChangeBits,
    ChangeFlags,
    Compare,
    Count,
    ExclusiveOr,
    Leave,
    Load,
    Modify,
    Move,
    Or,
    Pull,
    PullWhole,
    Push,
    Rotate,
    Store,
    Subtract,
    Swap,
    Transfer,
}

// Actions by number, since a task is packed into one for the step's speed.
pub const LEAVE: u32 = 0;

pub const LOAD: u32 = 1;

pub const MOVE: u32 = 2;

pub const STORE: u32 = 3;

pub const PUSH: u32 = 4;

pub const PULL: u32 = 5;

pub const PULL_WHOLE: u32 = 6;

pub const ADD: u32 = 7;

pub const SUBTRACT: u32 = 8;

pub const AND: u32 = 9;

pub const OR: u32 = 10;

pub const EXCLUSIVE_OR: u32 = 11;

pub const COMPARE: u32 = 12;

pub const COUNT: u32 = 13;

pub const MODIFY: u32 = 14;

pub const ROTATE: u32 = 15;

pub const SWAP: u32 = 16;

pub const CHANGE_BITS: u32 = 17;

pub const CHANGE_FLAGS: u32 = 18;

pub const BRANCH: u32 = 19;

pub const BRANCH_BITS: u32 = 20;

pub const TRANSFER: u32 = 21;

// One step of each field but the action.
pub const CHOICE: u32 = 32;

pub const DESTINATION: u32 = 1_024;

pub const ACCESS: u32 = 8_192;

// The action that a task names; any other number leaves all as it is.
#[tactic(auto, unfolding(crate::specs::Tasks::unpacked_task))]
pub(crate) fn action_of(task: u32) -> Action
    ensures { result ≡ (unpacked_task task).action }
{
    match task % CHOICE {
        LOAD => Action::Load,
        MOVE => Action::Move,
        STORE => Action::Store,
        PUSH => Action::Push,
        PULL => Action::Pull,
        PULL_WHOLE => Action::PullWhole,
        ADD => Action::Add,
        SUBTRACT => Action::Subtract,
        AND => Action::And,
        OR => Action::Or,
        EXCLUSIVE_OR => Action::ExclusiveOr,
        COMPARE => Action::Compare,
        COUNT => Action::Count,
        MODIFY => Action::Modify,
        ROTATE => Action::Rotate,
        SWAP => Action::Swap,
        CHANGE_BITS => Action::ChangeBits,
        CHANGE_FLAGS => Action::ChangeFlags,
        BRANCH => Action::Branch,
        BRANCH_BITS => Action::BranchBits,
        TRANSFER => Action::Transfer,
        _ => Action::Leave,
    }
}

// The choice of a task, five bits.
#[tactic(auto, unfolding(crate::specs::Tasks::unpacked_task))]
pub(crate) fn choice_of(task: u32) -> usize
    ensures { (result ≡ (unpacked_task task).choice) × (result < 32) }
{
    (task / CHOICE % 32) as usize
}

// The register that a task puts, three bits.
#[tactic(auto, unfolding(crate::specs::Tasks::unpacked_task))]
pub(crate) fn destination_of(task: u32) -> usize
    ensures { (result ≡ (unpacked_task task).destination) × (result < 8) }
{
    (task / DESTINATION % 8) as usize
}

// What a task asks of memory.
#[tactic(auto, using(prelude::proofs::Match::no_key), unfolding(crate::specs::Tasks::unpacked_task))]
pub fn operand_use_of(task: u32) -> OperandUse
    ensures { result ≡ (unpacked_task task).access }
{
    match task / ACCESS {
        1 => OperandUse::Addend,
        2 => OperandUse::Address,
        3 => OperandUse::Pull,
        4 => OperandUse::DirectWord,
        _ => OperandUse::Operand,
    }
}
