// The numbers of a lent slice. Real is f64 (float::width).
ghost use Rattle.exports.specs.Slices.{Read};

use float::width::Real;
use matrix::codes::Refusal;

// The numbers of an input that is to have N.
pub(crate) fn numbers<const N: usize>(a: &[Real]) -> Result<[Real; N], Refusal>
    ensures { Read N a.now result }
{
    a.try_into().map_err(|_| Refusal::InputLength)
}
