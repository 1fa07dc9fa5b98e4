// The widths after an instruction, for the check and the machine alike. SEM and CLM change m alone, so that m and x have
// a function each.
ghost use Rattle.std.specs.Prelude.{◌≡◌};
ghost use Rattle.instructions.specs.Successors as successors;

use types::code::WidthEffect;
use types::machine::Status;

// The places of m and x in the status register.
const M: u64 = Status::M as u64;

const X: u64 = Status::X as u64;

// A width after a bit of a number that sets it.
fn set_bit(width: u8, bit: u64) -> u8
    ensures { result ≡ successors.set_bit width bit }
{
    if bit == 1 { 1 } else { width }
}

// A width after a bit of a number that clears it.
fn clear_bit(width: u8, bit: u64) -> u8
    ensures { result ≡ successors.clear_bit width bit }
{
    if bit == 1 { 0 } else { width }
}

// m after an instruction.
pub fn m_after(effect: WidthEffect, m: u8, operand: u64) -> u8
    ensures { result ≡ successors.m_after effect m operand }
{
    match effect {
        WidthEffect::KeepWidths => m,
        WidthEffect::SetM => 1,
        WidthEffect::ClearM => 0,
        WidthEffect::SetBits => set_bit(m, operand / M % 2),
        WidthEffect::ClearBits => clear_bit(m, operand / M % 2),
    }
}

// x after an instruction.
pub fn x_after(effect: WidthEffect, x: u8, operand: u64) -> u8
    ensures { result ≡ successors.x_after effect x operand }
{
    match effect {
        WidthEffect::KeepWidths => x,
        WidthEffect::SetM => x,
        WidthEffect::ClearM => x,
        WidthEffect::SetBits => set_bit(x, operand / X % 2),
        WidthEffect::ClearBits => clear_bit(x, operand / X % 2),
    }
}
