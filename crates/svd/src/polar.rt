// One pair of a square matrix: made symmetric by a polar rotation, then diagonal by a Jacobi rotation. Real is f64 (float::width).
ghost use Rattle.std.specs.Prelude.{◌≡◌};
ghost use Rattle.float.specs.Width.{F};
ghost use Rattle.svd.specs.Polar.{hypot_of_sizes, hypot_of, symmetrised_by, polar_of, composed, two_sided_of, blind_sides};

use float::root::root;
use float::sign::magnitude;
use float::width::Real;
use jacobi::rotation::{Elements as Symmetric, Rotation};

// Of a pair: the two numbers on the diagonal, and the two beside it.
#[derive(Clone, Copy)]
pub struct Elements {
    pub app: Real,
    pub aqp: Real,
    pub apq: Real,
    pub aqq: Real,
}

// Cosine and sine of the polar rotation, and the symmetrised pair.
#[derive(Clone, Copy)]
pub struct Polar {
    pub c: Real,
    pub s: Real,
    pub s11: Real,
    pub s12: Real,
    pub s22: Real,
}

// The left and the right turn, the two diagonal numbers, and the symmetrised pair that they came from: its three numbers are fields here as in `Polar`, since
// the definitions of a blind rotation name them so.
#[derive(Clone, Copy)]
pub struct TwoSided {
    pub cl: Real,
    pub sl: Real,
    pub cr: Real,
    pub sr: Real,
    pub d1: Real,
    pub d2: Real,
    pub s11: Real,
    pub s12: Real,
    pub s22: Real,
}

impl TwoSided {
    // Whether the rotation of the symmetrised pair is blind.
    pub(crate) fn is_blind(self) -> bool
        ensures { result ≡ blind_sides F self }
    {
        let symmetric = Symmetric {
            apq: self.s12,
            app: self.s11,
            aqq: self.s22,
        };
        symmetric.is_blind()
    }
}

// By the larger and the smaller magnitude (dense3x3/svd.rs, lines 159 to 168).
fn hypot_of_sizes(large: Real, small: Real) -> Real
    ensures { result ≡ hypot_of_sizes F large small }
{
    if small == 0.0 {
        if large == 0.0 { 0.0 } else { large }
    } else {
        let r = small / large;
        large * root(1.0 + r * r)
    }
}

// The root of x^2 + y^2, by the quotient of the smaller and the larger (lines 141 to 170).
#[tactic(auto, unfolding(crate::specs::Polar::hypot_of))]
pub fn hypot_fast(x: Real, y: Real) -> Real
    ensures { result ≡ hypot_of F x y }
{
    let x = magnitude(x);
    let y = magnitude(y);
    if x > y {
        hypot_of_sizes(x, y)
    } else {
        hypot_of_sizes(y, x)
    }
}

// The left turn is both rotations, one after the other; the right one is the Jacobi rotation (lines 76 to 85).
fn compose(p: Polar, j: Rotation) -> TwoSided
    ensures { result ≡ composed F p j }
{
    TwoSided {
        cl: p.c * j.c - p.s * j.s,
        sl: p.c * j.s + p.s * j.c,
        cr: j.c,
        sr: j.s,
        d1: p.s11 - j.t * p.s12,
        d2: p.s22 + j.t * p.s12,
        s11: p.s11,
        s12: p.s12,
        s22: p.s22,
    }
}

impl Elements {
    // Turned by cosine c and sine s (lines 188 to 192).
    fn symmetrised(self, c: Real, s: Real) -> Polar
        ensures { result ≡ symmetrised_by F self.app self.aqp self.apq self.aqq c s }
    {
        Polar {
            c,
            s,
            s11: self.app * c - self.aqp * s,
            s12: self.apq * c - self.aqq * s,
            s22: self.aqq * c + self.apq * s,
        }
    }

    // By the sum of the diagonal, the difference beside it, and their hypot (lines 180 to 186).
    #[tactic(auto, unfolding(crate::specs::Polar::polar_of, crate::specs::Polar::polar_by))]
    fn polar(self) -> Polar
        ensures { result ≡ polar_of F self.app self.aqp self.apq self.aqq }
    {
        let x = self.app + self.aqq;
        let y = self.aqp - self.apq;
        let d = hypot_fast(x, y);
        if d == 0.0 {
            self.symmetrised(1.0, 0.0)
        } else {
            self.symmetrised(x / d, -y / d)
        }
    }

    // The rotation from both sides that makes the pair diagonal (lines 64 to 88).
    #[tactic(auto, unfolding(crate::specs::Polar::two_sided_of))]
    pub(crate) fn two_sided(self) -> TwoSided
        ensures { result ≡ two_sided_of F self.app self.aqp self.apq self.aqq }
    {
        let p = self.polar();
        let symmetric = Symmetric {
            apq: p.s12,
            app: p.s11,
            aqq: p.s22,
        };
        compose(p, symmetric.rotation())
    }
}

// A rotation that makes the pair symmetric (lines 172 to 193). This call and the next take the four numbers one by one, as the crate's do.
pub fn compute_polar_2x2(app: Real, aqp: Real, apq: Real, aqq: Real) -> Polar
    ensures { result ≡ polar_of F app aqp apq aqq }
{
    Elements { app, aqp, apq, aqq }.polar()
}

pub fn compute_two_sided_rotation(app: Real, aqp: Real, apq: Real, aqq: Real) -> TwoSided
    ensures { result ≡ two_sided_of F app aqp apq aqq }
{
    Elements { app, aqp, apq, aqq }.two_sided()
}
