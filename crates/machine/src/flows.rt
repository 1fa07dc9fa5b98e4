// What a step does by its flow: operations, jumps and calls.
ghost use Rattle.std.specs.Prelude.{◌≡◌, List, [], ℕ, ◌≤◌, Ok};
ghost use Rattle.cpu.specs.File.{registers_of};
ghost use Rattle.memory.specs.Listed.{listed};
ghost use Rattle.types.specs.declared.machine.CallChange.{CallChange};
ghost use Rattle.semantics.specs.Memory.{Memory, memory};
ghost use Rattle.instructions.specs.Successors.{target_address, kind_number};
ghost use Rattle.semantics.specs.Step as spec;
ghost use Rattle.machine.specs.Fetches.{instruction};
ghost use Rattle.machine.specs.StepResults.{core_at, left, finished, goes_on_by};

use crate::commit::{Completed, finish, put};
use crate::fetched::Fetched;
use actions::effect_by;
use actions::operands::Operands;
use actions::tasks::operand_use_of;
use addressing::access::is_short;
use addressing::reach::data_of;
use cpu::effects::{leaves, pushed_at, puts, store};
use cpu::file::{FILE_SIZE, PS, S};
use cpu::flags::is_set;
use entries::{accumulator_of, mode_of, target_form_of, width_of};
use memory::reads::Mapped;
use memory::stores::{Stores, write};
use operations::table::task_at;
use successors::{next_address, target_of};
use types::addresses::{Address, BANK_SIZE};
use types::code::Kind;
use types::machine::{CALL_LIMIT, Completion, OperandUse, RECORD_UNIT, Status, Stop};

// Where an instruction goes by its target.
fn target(i: Fetched) -> Address
    ensures { result ≡ target_address (instruction i) i.place }
{
    target_of(target_form_of(i.number), i.address(), i.length, i.operand)
}

// Where an operation goes on.
fn goes(branches: bool, taken: bool, i: Fetched) -> Address
    ensures { result ≡ goes_on_by branches i i.place taken }
{
    if branches && taken {
        target(i)
    } else {
        next_address(i.address(), i.length)
    }
}

// ADC and SBC with D=1.
fn is_decimal(access: OperandUse, registers: &[u16; FILE_SIZE]) -> bool
    ensures { result ≡ spec.is_decimal access (registers_of registers.now) }
{
    matches!(access, OperandUse::Addend) && is_set(Status::D, registers[PS])
}

// An operation: decimal mode, then the reads, then the operation, then its stores.
pub(crate) fn operates(
    image: &[u8],
    base: u32,
    branches: bool,
    i: Fetched,
    depth: usize,
    registers: &mut [u16; FILE_SIZE],
    ram: &mut [u8],
) -> Result<Completed, Stop>
    ensures { (calls : List ℕ) → left i.place depth result registers.new calls ram.new
        ≡ finished
        (spec.operates (core_at i.place depth registers.old) (instruction i)
        (memory ram.old image.now base) (goes_on_by branches i i.place))
        i (memory ram.old image.now base) i.place depth registers.old calls }
{
    let task = task_at(i.number);
    let access = operand_use_of(task);
    if is_decimal(access, registers) {
        return Err(Stop::Decimal);
    }
    let status = registers[PS];
    let short = is_short(
        width_of(i.number),
        is_set(Status::M, status),
        is_set(Status::X, status),
    );
    let mode = mode_of(i.number);
    let named = accumulator_of(i.number);
    let given = data_of(
        &Mapped { ram, image, base },
        access,
        mode,
        named,
        registers,
        short,
        i.operand,
    )
    .ok_or(Stop::Unmapped)?;
    let operands = Operands {
        mode,
        short,
        operand: i.operand,
        next: next_address(i.address(), i.length).number(),
        given,
    };
    let effect = effect_by(task, operands, registers);
    let to = goes(branches, effect.taken, i);
    finish(image, base, i, effect, to, depth, registers, ram)
}

// A jump.
pub(crate) fn jumps(i: Fetched, depth: usize, registers: &mut [u16; FILE_SIZE]) -> Completed
    ensures { (m : Memory) (calls : List ℕ) → left i.place depth (Ok result) registers.new calls m.ram
        ≡ finished
        (spec.changes
        (spec.change (registers_of registers.old) (target_address (instruction i) i.place) CallChange.Keep []))
        i m i.place depth registers.old calls }
{
    let status = registers[PS];
    put(registers, i, leaves(status));
    Completed {
        completion: Completion::Ordinary,
        place: target(i).number(),
        depth,
    }
}

// How many bytes a return address of a kind has.
pub(crate) fn return_bytes(kind: Kind) -> u16
    ensures { result ≡ spec.return_bytes kind }
{
    match kind {
        Kind::ByRts => 2,
        Kind::ByRtl => 3,
    }
}

// A return address onto the stack, the highest byte first.
fn pushes_return(s: u16, next: Address, kind: Kind) -> Stores
    ensures { (place depth : ℕ) (file : List ℕ) (i : Fetched) → s ≡ (registers_of file).s
        → next ≡ spec.next (core_at place depth file) (instruction i)
        → listed result ≡ spec.pushes_return (core_at place depth file) (instruction i) kind }
{
    let address = next.number() as u64;
    let first = s as u64;
    let second = pushed_at(s, 1) as u64;
    let third = pushed_at(s, 2) as u64;
    match kind {
        Kind::ByRts => Stores::Two(store(first, address / 256), store(second, address)),
        Kind::ByRtl => Stores::Three(
            store(first, address / BANK_SIZE as u64),
            store(second, address / 256),
            store(third, address),
        ),
    }
}

// The record of an open call.
fn entry_of(address: Address, kind: Kind) -> u64
    ensures { result ≡ spec.call_record address (kind_number kind) }
{
    address.number() as u64 + RECORD_UNIT * u8::from(kind) as u64
}

// A call, unless too many are open or its pushes are not served.
#[tactic(auto, using(crate::proofs::Calling::stops_deep))]
pub(crate) fn calls_to(
    image: &[u8],
    base: u32,
    i: Fetched,
    kind: Kind,
    depth: usize,
    registers: &mut [u16; FILE_SIZE],
    calls: &mut [u64; CALL_LIMIT],
    ram: &mut [u8],
) -> Result<Completed, Stop>
    requires { depth ≤ spec.call_limit }
    ensures { left i.place depth result registers.new calls.new ram.new
        ≡ finished (spec.calls (core_at i.place depth registers.old) (instruction i) kind) i
        (memory ram.old image.now base) i.place depth registers.old calls.old }
{
    if CALL_LIMIT <= depth {
        return Err(Stop::Deep);
    }
    let next = next_address(i.address(), i.length);
    let s = registers[S];
    let stores = pushes_return(s, next, kind);
    Mapped { ram, image, base }.served_all(stores)?;
    write(ram, stores);
    calls[depth] = entry_of(next, kind);
    let status = registers[PS];
    put(
        registers,
        i,
        puts(S, pushed_at(s, return_bytes(kind)), status),
    );
    Ok(Completed {
        completion: Completion::Call,
        place: target(i).number(),
        depth: depth + 1,
    })
}
