// The three pairs of a 3x3: which is the largest, and what a rotation of one makes of two columns. Real is f64 (float::width).
ghost use Rattle.std.specs.Prelude.{◌≡◌};
ghost use Rattle.float.specs.Width.{F};
ghost use Rattle.matrix.specs.Square.{mat3};
ghost use Rattle.jacobi.specs.declared.pairs.Pair.TheVariants.{P12};
ghost use Rattle.jacobi.specs.Pairs.{larger_pair, largest_of, turned_of};

use float::width::Real;
use matrix::square::Mat3;

// The rows and columns p < q that a rotation mixes.
#[derive(Clone, Copy, Debug, PartialEq, Eq)]
pub enum Pair {
    P12,
    P13,
    P23,
}

// A pair and the size of what lies beside the diagonal there.
#[derive(Clone, Copy, Debug, PartialEq)]
pub struct OffDiag {
    pub pair: Pair,
    pub size: Real,
}

// The next pair takes the place of the largest so far only if it is strictly larger.
fn larger(best: OffDiag, next: OffDiag) -> OffDiag
    ensures { result ≡ larger_pair best next }
{
    if next.size > best.size { next } else { best }
}

// The running maximum over the three pairs, in their order (dense3x3/eigen.rs, lines 258 to 272; svd.rs does the same).
#[tactic(auto, unfolding(crate::specs::Pairs::largest_of))]
pub fn largest(abs12: Real, abs13: Real, abs23: Real) -> OffDiag
    ensures { result ≡ largest_of abs12 abs13 abs23 }
{
    let first = OffDiag {
        pair: Pair::P12,
        size: abs12,
    };
    let second = OffDiag {
        pair: Pair::P13,
        size: abs13,
    };
    let third = OffDiag {
        pair: Pair::P23,
        size: abs23,
    };
    larger(larger(first, second), third)
}

// The first two columns turned into each other.
fn turn12(v: Mat3, c: Real, s: Real) -> Mat3
    ensures { result ≡ mat3 (turned_of F P12 c s v.«data») }
{
    let [x1, x2, x3, y1, y2, y3, z1, z2, z3] = v.data;
    Mat3 {
        data: [
            c * x1 - s * y1,
            c * x2 - s * y2,
            c * x3 - s * y3,
            s * x1 + c * y1,
            s * x2 + c * y2,
            s * x3 + c * y3,
            z1,
            z2,
            z3,
        ],
    }
}

// The columns of the pair turned into each other, by cosine and sine alone: the crate's `update_eigenvectors` (dense3x3/eigen.rs, lines 369 to 382).
// They take the first two places and go back, so that each place is a constant: that is faster than an index.
pub fn turn_columns(v: Mat3, pair: Pair, c: Real, s: Real) -> Mat3
    ensures { result ≡ mat3 (turned_of F pair c s v.«data») }
{
    match pair {
        Pair::P12 => turn12(v, c, s),
        Pair::P13 => turn12(v.swap23(), c, s).swap23(),
        Pair::P23 => turn12(v.swap12().swap23(), c, s).swap23().swap12(),
    }
}
