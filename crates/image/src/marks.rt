// The fields of a mark, and a mark of its fields. A kind is a number here, two bits, of which 3 is no kind. Each field has
// a function of its own: one for all, by the place of its bits, would leave the places to its callers.
ghost use Rattle.std.specs.Prelude.{◌≡◌, ◌≤◌};
ghost use Rattle.acceptance.specs.Image.{mark_m, mark_x, mark_kind, return_m, return_x, mark_of};

// m at the start.
pub fn mark_m(mark: u8) -> u8
    ensures { (result ≡ mark_m mark) × (result ≤ 1) }
{
    mark / 2 % 2
}

// x at the start.
pub fn mark_x(mark: u8) -> u8
    ensures { (result ≡ mark_x mark) × (result ≤ 1) }
{
    mark / 4 % 2
}

// How the routine returns.
pub fn mark_kind(mark: u8) -> u8
    ensures { (result ≡ mark_kind mark) × (result ≤ 3) }
{
    mark / 8 % 4
}

// m at the routine's return.
pub fn return_m(mark: u8) -> u8
    ensures { (result ≡ return_m mark) × (result ≤ 1) }
{
    mark / 32 % 2
}

// x at the routine's return.
pub fn return_x(mark: u8) -> u8
    ensures { (result ≡ return_x mark) × (result ≤ 1) }
{
    mark / 64 % 2
}

// The mark of a start with these fields. Asks for fields within their bits, so that the sum is a byte.
pub fn mark_of(m: u8, x: u8, kind: u8, rm: u8, rx: u8) -> u8
    requires { (m ≤ 1) × (x ≤ 1) × (kind ≤ 3) × (rm ≤ 1) × (rx ≤ 1) }
    ensures { result ≡ mark_of m x kind rm rx }
{
    1 + 2 * m + 4 * x + 8 * kind + 32 * rm + 64 * rx
}
