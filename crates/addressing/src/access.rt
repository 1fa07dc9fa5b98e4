// The width of an instruction's data.
ghost use Rattle.std.specs.Prelude.{◌≡◌};
ghost use Rattle.semantics.specs.Addressing as spec;

use types::code::DataWidth;

// Whether data of a width has 8 bits at the widths m and x.
pub fn is_short(width: DataWidth, m: bool, x: bool) -> bool
    ensures { result ≡ spec.is_short width m x }
{
    match width {
        DataWidth::NoData | DataWidth::Word => false,
        DataWidth::ByM => m,
        DataWidth::ByX => x,
        DataWidth::Byte => true,
    }
}
