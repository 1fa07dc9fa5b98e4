// The register file: the registers side by side as numbers, so that a step writes those that change and copies none.
// Left open is the upper byte of DT's number: DT has 8 bits, and a promise speaks of the registers that a file holds
// (specs/File.antt, `registers_of`). Nothing hangs on it, for a task gives the same registers whatever it is
// (operations/specs/Table.antt, `Does`).
ghost use Rattle.std.specs.Prelude.{◌≡◌, length};
ghost use Rattle.semantics.specs.Addressing.{accumulator_of};
ghost use Rattle.cpu.specs.File.{registers_of, file_size};

use types::code::Accumulator;
use types::machine::{Registers, Status};

// The place of each register.
pub const A: usize = 0;

pub const B: usize = 1;

pub const X: usize = 2;

pub const Y: usize = 3;

pub const S: usize = 4;

pub const DPR: usize = 5;

pub const DT: usize = 6;

pub const PS: usize = 7;

// How many there are.
pub const FILE_SIZE: usize = 8;

// The accumulator that an entry names, A where it names none.
pub fn accumulator_in(named: Accumulator, registers: &[u16; FILE_SIZE]) -> u16
    ensures { result ≡ accumulator_of named (registers_of registers.now) }
{
    match named {
        Accumulator::Unnamed | Accumulator::A => registers[A],
        Accumulator::B => registers[B],
    }
}

// The file of registers; DT's upper byte is left open.
#[tactic(auto, using(crate::proofs::Files::filed))]
pub fn file_of(registers: Registers) -> [u16; FILE_SIZE]
    ensures { (registers_of result ≡ registers) × (length result ≡ file_size) }
{
    [
        registers.a,
        registers.b,
        registers.x,
        registers.y,
        registers.s,
        registers.dpr,
        registers.dt as u16,
        u16::from(registers.status),
    ]
}

// The registers of a file.
pub fn registers_in(file: &[u16; FILE_SIZE]) -> Registers
    ensures { result ≡ registers_of file.now }
{
    Registers {
        a: file[A],
        b: file[B],
        x: file[X],
        y: file[Y],
        s: file[S],
        dpr: file[DPR],
        dt: (file[DT] % 256) as u8,
        status: Status::from(file[PS]),
    }
}
