// Bytes of a list, and numbers stored in them low byte first.
#![tactic(auto)]

ghost use Rattle.std.specs.Prelude.{◌≡◌, ◌+◌, ◌*◌, ◌%◌, ◌^◌, ◌≤◌, ◌<◌, length, get_or, take};
ghost use Rattle.std.proofs.lemmas.List.Edits.{sets};
ghost use Rattle.fields.specs.Fields as spec;

// The byte at a place, 0 past the end.
pub fn byte_at(bytes: &[u8], at: usize) -> u8
    ensures { result ≡ get_or bytes.now at 0 }
{
    bytes.get(at).copied().unwrap_or(0)
}

// A word of its two bytes.
pub fn word_of(low: u8, high: u8) -> u16
    ensures { result ≡ low + 256 * high }
{
    low as u16 + 256 * high as u16
}

// A number of its three bytes.
pub fn long_of(low: u8, high: u8, last: u8) -> u32
    ensures { (result ≡ low + 256 * high + 65_536 * last) × (result < 16_777_216) }
{
    word_of(low, high) as u32 + 65_536 * last as u32
}

// Bytes as one number. It is that of the first eight, which are all that 64 bits hold.
pub fn number(bytes: &[u8]) -> u64
    ensures { result ≡ spec.number (take 8 bytes.now) }
{
    bytes
        .iter()
        .rev()
        .fold(0, |value, byte| (value << 8) + *byte as u64)
}

// The field of a size at a place; past the end stands 0. Asks for a place whose sum with the size is a number, and for
// no more bytes than 64 bits hold. Byte by byte: what goes on from the state that it reads is faster so.
#[tactic(auto, using(crate::proofs::FieldReading::room_for_one))]
pub fn field_at(bytes: &[u8], at: usize, size: usize) -> u64
    requires { (at + size < 18_446_744_073_709_551_616) × (size ≤ 8) }
    ensures { (result ≡ spec.field_at at size bytes.now) × (result < 256 ^ size) }
{
    let mut value = 0;
    for i in (0..size).rev() {
        value = value * 256 + byte_at(bytes, at + i) as u64;
    }
    value
}

// Two bytes from a place on. Asks for both, as `six_bytes` does.
fn pair(bytes: &[u8], at: usize) -> u64
    requires { at + 2 ≤ length bytes.now }
    ensures { (result ≡ spec.field_at at 2 bytes.now) × (result < 65_536) }
{
    word_of(bytes[at], bytes[at + 1]) as u64
}

// Six bytes from a place on as one number. Written out, so that a processor loads them together, and with no test of
// the place, which a caller makes once.
pub fn six_bytes(bytes: &[u8], at: usize) -> u64
    requires { at + 6 ≤ length bytes.now }
    ensures { result ≡ spec.field_at at 6 bytes.now }
{
    let low = pair(bytes, at) + 65_536 * pair(bytes, at + 2);
    low + 4_294_967_296 * pair(bytes, at + 4)
}

// The n low bytes of a number. Asked for fewer than all eight: no shift takes 64 bits away.
pub fn low_bytes(value: u64, n: u8) -> u64
    requires { n < 8 }
    ensures { result ≡ value % 256 ^ n }
{
    let bits = 8 * n as u32;
    value - (value >> bits << bits)
}

// Writes a field at a place. Asks for its room, so that no byte is tested.
pub fn put_field(bytes: &mut [u8], at: usize, size: usize, given: u64)
    requires { at + size ≤ length bytes.old }
    ensures { bytes.new ≡ sets bytes.old at (spec.low_bytes size given) }
{
    let mut value = given;
    for byte in &mut bytes[at..at + size] {
        *byte = (value % 256) as u8;
        value /= 256;
    }
}

// Writes fields of one size, the first at a place, where there is room for all.
pub fn put_fields(bytes: &mut [u8], from: usize, size: usize, values: &[u64])
    requires { from + size * length values.now ≤ length bytes.old }
    ensures { bytes.new ≡ sets bytes.old from (spec.joined size values.now) }
{
    let mut at = from;
    for value in values {
        put_field(bytes, at, size, *value);
        at += size;
    }
}
