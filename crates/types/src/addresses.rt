// Addresses: numbers of 24 bits, a bank and 16 bits in it.
ghost use Rattle.std.specs.Prelude.{◌≡◌, ℕ, ◌%◌, ◌<◌};
ghost use Rattle.types.specs.Addresses.{bank_size, address_limit, in_bank_of};

use std::marker::Model;

// The limits of specs/Addresses.antt.
pub const BANK_SIZE: u32 = 65_536;

pub const ADDRESS_LIMIT: u32 = 16_777_216;

// An address; a contract sees its number.
#[derive(Clone, Copy)]
pub struct Address {
    number: u32,
}

impl Model for Address {
    ghost Value = { ℕ };

    ghost view = { λ a. a.number };

    ghost invariant = { λ a. a.number < address_limit };

    ghost inverse = { λ n. record { number = n } };
}

impl Address {
    // The address of a number. Asks for one of 24 bits.
    pub fn new(number: u32) -> Address
        requires { number < address_limit }
        ensures { result ≡ number }
    {
        Address { number }
    }

    // A number as an address: beyond the last they count on from the first.
    pub fn wrapped(number: u32) -> Address
        ensures { result ≡ number % address_limit }
    {
        Address {
            number: number % ADDRESS_LIMIT,
        }
    }

    // The number of an address.
    pub fn number(self) -> u32
        ensures { (result ≡ self) × (result < address_limit) }
    {
        self.number
    }
}

// The low 16 bits of an operand.
pub fn low_word(operand: u64) -> u16
    ensures { result ≡ operand % bank_size }
{
    (operand % BANK_SIZE as u64) as u16
}

// The low 24 bits of an operand.
pub fn low_long(operand: u64) -> Address
    ensures { result ≡ operand % address_limit }
{
    Address {
        number: (operand % ADDRESS_LIMIT as u64) as u32,
    }
}

// The address in the bank of another that has these low 16 bits.
pub fn in_bank_of(address: Address, low: u16) -> Address
    ensures { result ≡ in_bank_of address low }
{
    Address {
        number: address.number / BANK_SIZE * BANK_SIZE + low as u32,
    }
}
