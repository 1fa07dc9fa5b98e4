// What an instruction gives its action.
ghost use Rattle.std.specs.Prelude.{◌<◌};
ghost use Rattle.instructions.specs.Decode.{operand_limit};
ghost use Rattle.types.specs.Addresses.{address_limit};

use types::code::Mode;
use types::machine::Data;

// Its addressing mode, whether its data has 8 bits, its operand, the address just after it, and the data that was read.
// The address has 24 bits and the operand five bytes, so that their sum (PER) passes no u64; it stays a number, for the
// toolchain copies no struct that holds an `Address`.
#[derive(Clone, Copy)]
pub struct Operands {
    pub mode: Mode,
    pub short: bool,
    pub operand: u64,
    pub next: u32,
    pub given: Data,
    ghost bounded: { (next < address_limit) × (operand < operand_limit) },
}
