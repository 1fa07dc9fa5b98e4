// Data of 8 or 16 bits: `short` says which.
#![tactic(auto)]

ghost use Rattle.std.specs.Prelude.{◌≡◌, ◌*◌, ◌%◌, ◌^◌, ◌<◌, ◌≤◌};
ghost use Rattle.semantics.specs.Addressing.{bits};
ghost use Rattle.anywidth.specs.AnyWidth as spec;

// Data where a larger number is wanted.
pub fn wide(v: u16) -> u64
    ensures { result ≡ v }
{
    v as u64
}

// How many numbers data of a width can be.
pub fn size(short: bool) -> u64
    ensures { (result ≡ spec.size (bits short)) × (0 < result) × (result ≤ 65_536) }
{
    if short { 256 } else { 65_536 }
}

// The part of a number that data of a width holds.
pub fn low(short: bool, v: u64) -> u16
    ensures { (result ≡ spec.low (bits short) v) × (result < spec.size (bits short)) }
{
    if short {
        return (v % 256) as u16;
    }
    (v % 65_536) as u16
}

// The lowest number with the sign bit.
pub fn half(short: bool) -> u64
    ensures { (result ≡ spec.half (bits short)) × (result ≤ 32_768) }
{
    if short { 128 } else { 32_768 }
}

// A flag as the sign bit.
pub fn top_bit(short: bool, flag: bool) -> u64
    ensures { (result ≡ spec.top_bit (bits short) flag) × (result ≤ 32_768) }
{
    if flag {
        return half(short);
    }
    0
}

// A register with data put into it.
pub fn merged(short: bool, old: u16, v: u64) -> u16
    ensures { result ≡ spec.merged (bits short) old v }
{
    if short {
        return old / 256 * 256 + (v % 256) as u16;
    }
    (v % 65_536) as u16
}

// Data and other data and C, added.
pub fn sum(a: u16, v: u16, carry: bool) -> u64
    ensures { result ≡ spec.sum a v carry }
{
    a as u64 + v as u64 + u64::from(carry)
}

// What a number below the size lacks to the highest number.
fn complement(short: bool, v: u64) -> u64
    requires { v < spec.size (bits short) }
    ensures { (result ≡ spec.complement (bits short) v) × (result ≤ 65_535) }
{
    size(short) - 1 - v
}

// Data less other data, and less 1 where C is clear, above 0 by a whole turn of the width.
pub fn difference(short: bool, a: u16, v: u16, carry: bool) -> u64
    ensures { result ≡ spec.difference (bits short) a v carry }
{
    let taken = low(short, v as u64);
    a as u64 + complement(short, taken as u64) + u64::from(carry)
}

// Data counted from the lowest signed number on.
fn signed(short: bool, v: u16) -> u64
    ensures { (result ≡ spec.signed (bits short) v) × (result < spec.size (bits short)) × (result ≤ 65_535) }
{
    let turned = v as u64 + half(short);
    low(short, turned) as u64
}

// Whether the sum of two numbers so counted leaves the signed range.
fn is_outside(short: bool, v: u64) -> bool
    ensures { result ≡ spec.is_outside (bits short) v }
{
    if v < half(short) {
        return true;
    }
    half(short) + size(short) <= v
}

// V of a sum.
pub fn sum_overflows(short: bool, a: u16, v: u16, carry: bool) -> bool
    ensures { result ≡ spec.sum_overflows (bits short) a v carry }
{
    is_outside(
        short,
        signed(short, a) + signed(short, v) + u64::from(carry),
    )
}

// V of a difference.
pub fn difference_overflows(short: bool, a: u16, v: u16, carry: bool) -> bool
    ensures { result ≡ spec.difference_overflows (bits short) a v carry }
{
    is_outside(
        short,
        signed(short, a) + complement(short, signed(short, v)) + u64::from(carry),
    )
}

// C of a sum or a difference: whether it passes the width.
pub fn is_past(short: bool, v: u64) -> bool
    ensures { result ≡ spec.is_past (bits short) v }
{
    size(short) <= v
}

// Data with the bits of a mask cleared.
pub fn cleared_by(short: bool, mask: u16, v: u16) -> u16
    ensures { result ≡ spec.cleared_by (bits short) mask v }
{
    let kept = complement(short, low(short, mask as u64) as u64);
    v & kept as u16
}

// How far data of a width is rotated by a count.
fn rotation(short: bool, n: u16) -> u16
    ensures { (result ≡ n % bits short) × (result < 16) }
{
    if short { n % 8 } else { n % 16 }
}

// Data shifted to the left by less than its longest width.
fn shifted(v: u16, n: u16) -> u64
    requires { n < 16 }
    ensures { (result ≡ v * 2 ^ n) × (result ≤ 65_535 * 32_768) }
{
    (v as u64) << n
}

// Data rotated to the left.
pub fn rotated(short: bool, v: u16, n: u16) -> u64
    ensures { result ≡ spec.rotated (bits short) v n }
{
    let moved = shifted(v, rotation(short, n));
    if short {
        return moved % 256 + moved / 256;
    }
    moved % 65_536 + moved / 65_536
}
