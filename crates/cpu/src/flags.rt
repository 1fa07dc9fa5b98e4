// The flags of the status register's number, and the number with some of them changed.
ghost use Rattle.std.specs.Prelude.{◌≡◌, ◌+◌, ◌-◌, ◌*◌, ◌/◌, ◌%◌, ◌^◌, ◌<◌, ◌≤◌, ◌==◌, ◌⊎◌};
ghost use Rattle.semantics.specs.Addressing.{bits};
ghost use Rattle.semantics.specs.Arithmetic as spec;
ghost use Rattle.types.specs.Status.{is_set, status_of, mask_c, mask_v};
ghost use Rattle.prelude.specs.Choice.{bit};

use datawidth::{half, low};
use types::machine::Status;

// Whether the flag that a mask names is set. Asks for a mask other than 0: it is divided by.
pub fn is_set(mask: u16, status: u16) -> bool
    requires { 0 < mask }
    ensures { result ≡ is_set mask status }
{
    status / mask % 2 == 1
}

// The flag that a mask names, as a number. Asks the same.
pub fn bit_at(mask: u16, status: u16) -> u8
    requires { 0 < mask }
    ensures { (result ≡ bit (is_set mask status)) × (result ≤ 1) }
{
    u8::from(is_set(mask, status))
}

// The status with the flag of a mask put. Asks for one of the two that arithmetic puts.
fn with_flag(mask: u16, flag: bool, status: u16) -> u16
    requires { (mask ≡ mask_c) ⊎ (mask ≡ mask_v) }
    ensures { result ≡ status - status / mask % 2 * mask + mask * bit flag }
{
    status - status / mask % 2 * mask + mask * u16::from(flag)
}

// The status with C put.
#[tactic(auto, using(crate::proofs::Numbers::carry_changed))]
pub(crate) fn with_carry(flag: bool, status: u16) -> u16
    ensures { status_of result ≡ spec.with_carry flag (status_of status) }
{
    with_flag(Status::C, flag, status)
}

// The status with V put.
#[tactic(auto, using(crate::proofs::Numbers::overflow_changed))]
pub(crate) fn with_overflow(flag: bool, status: u16) -> u16
    ensures { status_of result ≡ spec.with_overflow flag (status_of status) }
{
    with_flag(Status::V, flag, status)
}

// The status with m and x put, as an instruction's width effect gives them. Asks for 0 or 1: they are added.
#[tactic(auto, using(crate::proofs::Numbers::widths_changed))]
pub fn with_widths(m: u8, x: u8, status: u16) -> u16
    requires { (m ≤ 1) × (x ≤ 1) }
    ensures { status_of result ≡ spec.with_widths (m == 1) (x == 1) (status_of status) }
{
    status - status / Status::X % 4 * Status::X
        + Status::M * u16::from(m)
        + Status::X * u16::from(x)
}

// The status with N and Z of a result.
pub fn with_result(short: bool, v: u64, status: u16) -> u16
    ensures { status_of result ≡ spec.with_result (bits short) v (status_of status) }
{
    let result = low(short, v);
    let zero = Status::Z * u16::from(result == 0);
    let negative = Status::N * u16::from(half(short) <= u64::from(result));
    status - (status / Status::Z % 2 * Status::Z + status / Status::N % 2 * Status::N)
        + zero
        + negative
}

// The flags that a mask may change: m and x are the width effect's.
const CHANGED: u16 = 207;

// SEP: the flags that a mask names are set.
#[tactic(auto, using(crate::proofs::Masks::flags_set))]
pub fn with_flags_set(mask: u16, status: u16) -> u16
    ensures { status_of result ≡ spec.with_flags_set mask (status_of status) }
{
    CHANGED & mask | status
}

// CLP: the flags that a mask names are cleared.
#[tactic(auto, using(crate::proofs::Masks::flags_cleared))]
pub fn with_flags_cleared(mask: u16, status: u16) -> u16
    ensures { status_of result ≡ spec.with_flags_cleared mask (status_of status) }
{
    CHANGED & mask & status ^ status
}

// The flag at a place of the status. Asks for one of the eight: the status is shifted by it.
pub fn flag_at(place: usize, status: u16) -> bool
    requires { place < 8 }
    ensures { result ≡ is_set (2 ^ place) status }
{
    (status >> place) % 2 == 1
}
