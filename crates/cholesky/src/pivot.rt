// The pivot step, of both factors. Real is f64 (float::width).
ghost use Rattle.std.specs.Prelude.{◌≡◌};
ghost use Rattle.float.specs.Width.{F};
ghost use Rattle.cholesky.specs.Pivot.{pivot_answer, pivot_of};

use crate::answers::FactorError;
use float::bits::is_nan;
use float::root::root;
use float::width::Real;

// The root of the pivot t, whose number is k. A pivot that is at most zero is refused, -0 too, and so is a NaN, which the crate lets pass.
#[tactic(auto, unfolding(crate::specs::Pivot::pivot_of))]
pub fn pivot_step(t: Real, k: u8) -> Result<Real, FactorError>
    ensures { pivot_answer F result ≡ pivot_of F t k }
{
    if t <= 0.0 {
        return Err(FactorError::AtMostZero(k));
    }
    if is_nan(t) {
        return Err(FactorError::NotANumber(k));
    }
    Ok(root(t))
}
