// Where control goes from an instruction: the next address and the target, for the check and the machine alike.
#![tactic(auto)]

pub mod widths;

ghost use Rattle.std.specs.Prelude.{◌≡◌, ◌≤◌, ◌<◌};
ghost use Rattle.types.specs.Addresses.{bank_size};
ghost use Rattle.instructions.specs.Successors as successors;

use types::addresses::{ADDRESS_LIMIT, Address, in_bank_of, low_long, low_word};
use types::code::Target;

// The address after n bytes more.
pub fn next_address(address: Address, n: u8) -> Address
    ensures { result ≡ successors.next_address address n }
{
    Address::wrapped(address.number() + n as u32)
}

// The address with these low 16 bits in the bank of the address just after an instruction: where JMP and JSR absolute
// go, and RTS.
pub fn in_bank_after(address: Address, n: u8, low: u16) -> Address
    ensures { result ≡ successors.in_bank_after address n low }
{
    in_bank_of(next_address(address, n), low)
}

// An address plus a signed offset whose half range is 128 or 32,768.
fn offset_by(half: u32, address: Address, offset: u32) -> Address
    requires { (half ≤ 32_768) × (offset < bank_size) }
    ensures { result ≡ successors.offset_by half address offset }
{
    if offset < half {
        return Address::wrapped(address.number() + offset);
    }
    Address::wrapped(address.number() + (ADDRESS_LIMIT - 2 * half + offset))
}

// The last byte of an instruction of 2 to 6 bytes that has no prefix, out of its operand.
fn last_byte(operand: u64, n: u8) -> u32
    requires { n ≤ 6 }
    ensures { (result ≡ successors.last_byte operand n) × (result < 256) }
{
    if n < 2 {
        return (operand % 256) as u32;
    }
    let bits = 8 * (n - 2) as u32;
    ((operand >> bits) % 256) as u32
}

// Where an instruction of n bytes at an address goes by its target. Asks for 6 bytes at most, as instructions have: the
// operand is shifted by the length.
#[tactic(auto, unfolding(instructions::specs::Successors::target_of))]
pub fn target_of(target: Target, address: Address, n: u8, operand: u64) -> Address
    requires { n ≤ 6 }
    ensures { result ≡ successors.target_of target address n operand }
{
    match target {
        Target::NoTarget => next_address(address, n),
        Target::Offset8 => offset_by(128, next_address(address, n), last_byte(operand, n)),
        Target::Offset16 => offset_by(32_768, next_address(address, n), low_word(operand) as u32),
        Target::Address16 => in_bank_after(address, n, low_word(operand)),
        Target::Address24 => low_long(operand),
    }
}
