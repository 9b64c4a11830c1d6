// The choice of a Jacobi rotation (dense3x3/eigen.rs, lines 292 to 329). Real is f64 (float::width).
ghost use Rattle.std.specs.Prelude.{◌≡◌};
ghost use Rattle.float.specs.Width.{F};
ghost use Rattle.jacobi.specs.Rotation.{larger_of, diagonal_of, tangent_of, turn_by, rotation_of};

use float::root::root;
use float::sign::{is_finite, magnitude, signum};
use float::width::{EPSILON, HALF_ROOT, Real};

// Cosine, sine and tangent.
#[derive(Clone, Copy, Debug, PartialEq)]
pub struct Rotation {
    pub c: Real,
    pub s: Real,
    pub t: Real,
}

// Of a pair of rows and columns p < q: the number beside the diagonal, and the two on it.
#[derive(Clone, Copy, Debug, PartialEq)]
pub struct Elements {
    pub apq: Real,
    pub app: Real,
    pub aqq: Real,
}

fn larger(a: Real, b: Real) -> Real
    ensures { result ≡ larger_of a b }
{
    if a > b { a } else { b }
}

impl Elements {
    // The larger diagonal magnitude.
    pub(crate) fn diagonal(self) -> Real
        ensures { result ≡ diagonal_of self.app self.aqq }
    {
        larger(magnitude(self.app), magnitude(self.aqq))
    }

    // The rotation that takes apq away: the Rust's `compute_jacobi_rotation`.
    #[tactic(auto, unfolding(crate::specs::Rotation::rotation_of))]
    pub fn rotation(self) -> Rotation
        ensures { result ≡ rotation_of F self.apq self.app self.aqq }
    {
        if self.apq == 0.0 {
            return Rotation {
                c: 1.0,
                s: 0.0,
                t: 0.0,
            };
        }
        let even = Rotation {
            c: HALF_ROOT,
            s: HALF_ROOT,
            t: 1.0,
        };
        let d = self.diagonal();
        if d < EPSILON {
            return even;
        }
        let diffdiag = self.aqq - self.app;
        if magnitude(diffdiag) < EPSILON * d {
            return even;
        }
        turned_by(tangent(diffdiag / (self.apq * 2.0)))
    }
}

// The tangent by theta. Where its square is not finite, the inverse of twice theta is near enough.
#[tactic(auto, unfolding(crate::specs::Rotation::tangent_of))]
fn tangent(theta: Real) -> Real
    ensures { result ≡ tangent_of F theta }
{
    let thetasq = theta * theta;
    if is_finite(thetasq) {
        signum(theta) / (magnitude(theta) + root(1.0 + thetasq))
    } else {
        0.5 / theta
    }
}

fn turned_by(t: Real) -> Rotation
    ensures { result ≡ turn_by F t }
{
    let c = 1.0 / root(1.0 + t * t);
    Rotation { c, s: t * c, t }
}
