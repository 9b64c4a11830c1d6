// The three pairs of a square 3x3: which is the largest, and what a two-sided rotation makes of the matrix. Real is f64 (float::width).
ghost use Rattle.std.specs.Prelude.{◌≡◌, ◌<◌};
ghost use Rattle.std.specs.Float.Ieee.{add};
ghost use Rattle.float.specs.Sign.{magnitude_of};
ghost use Rattle.float.specs.Width.{F};
ghost use Rattle.matrix.specs.Square.{mat3};
ghost use Rattle.jacobi.specs.Pairs.{index_p, index_q, index_k};
ghost use Rattle.jacobi.specs.declared.pairs.Pair.{Pair};
ghost use Rattle.svd.specs.Pairs.{elements_of, off_diag_of, sides_of, applied_of};

use crate::polar::{Elements, TwoSided};
use float::sign::magnitude;
use float::width::Real;
use jacobi::pairs::{OffDiag, Pair, largest};
use matrix::square::Mat3;

// The sum of a pair's two magnitudes beside the diagonal (dense3x3/svd.rs, lines 49 to 51).
fn pair_size(apq: Real, aqp: Real) -> Real
    ensures { result ≡ add F (magnitude_of apq) (magnitude_of aqp) }
{
    magnitude(apq) + magnitude(aqp)
}

// The largest of the three by the sum of its two magnitudes, the first on ties (lines 48 to 62).
pub fn find_largest_off_diag_nonsym(a: Mat3) -> OffDiag
    ensures { result ≡ off_diag_of F a.«data» }
{
    let [_, a21, a31, a12, _, a32, a13, a23, _] = a.data;
    largest(
        pair_size(a12, a21),
        pair_size(a13, a31),
        pair_size(a23, a32),
    )
}

// The four numbers that the rotation of a pair is chosen by (line 29).
fn get_rotation_elements(a: Mat3, p: Pair) -> Elements
    ensures { result ≡ elements_of p a.«data» }
{
    let [a11, a21, a31, a12, a22, a32, a13, a23, a33] = a.data;
    match p {
        Pair::P12 => Elements {
            app: a11,
            aqp: a21,
            apq: a12,
            aqq: a22,
        },
        Pair::P13 => Elements {
            app: a11,
            aqp: a31,
            apq: a13,
            aqq: a33,
        },
        Pair::P23 => Elements {
            app: a22,
            aqp: a32,
            apq: a23,
            aqq: a33,
        },
    }
}

// The two-sided rotation of a pair (lines 29 and 30).
#[tactic(auto, unfolding(crate::specs::Pairs::sides_of))]
pub(crate) fn rotation_of(a: Mat3, p: Pair) -> TwoSided
    ensures { result ≡ sides_of F p a.«data» }
{
    get_rotation_elements(a, p).two_sided()
}

// Rows and columns P and Q turned, and diagonal where they meet, with K beside them: in it the left rotation turns what lies in the rows, and the right one
// what lies in the columns (lines 127 to 132).
fn applied<const P: usize, const Q: usize, const K: usize>(a: Mat3, r: TwoSided) -> Mat3
    requires { (P < 3) × (Q < 3) × (K < 3) }
    ensures { (x : Pair) → index_p x ≡ P → index_q x ≡ Q → index_k x ≡ K → result ≡ mat3 (applied_of F x r a.«data») }
{
    let (row_p, row_q) = (a.data[P + 3 * K], a.data[Q + 3 * K]);
    let (column_p, column_q) = (a.data[K + 3 * P], a.data[K + 3 * Q]);
    let mut data = a.data;
    data[P + 3 * P] = r.d1;
    data[Q + 3 * P] = 0.0;
    data[P + 3 * Q] = 0.0;
    data[Q + 3 * Q] = r.d2;
    data[P + 3 * K] = row_p * r.cl - row_q * r.sl;
    data[Q + 3 * K] = row_q * r.cl + row_p * r.sl;
    data[K + 3 * P] = column_p * r.cr - column_q * r.sr;
    data[K + 3 * Q] = column_q * r.cr + column_p * r.sr;
    Mat3 { data }
}

// The matrix after a two-sided rotation of the pair (lines 91 to 138). The indices are constants of each arm: with them as variables a call takes 7% longer.
pub fn apply_two_sided_rotation(a: Mat3, p: Pair, r: TwoSided) -> Mat3
    ensures { result ≡ mat3 (applied_of F p r a.«data») }
{
    match p {
        Pair::P12 => applied::<0, 1, 2>(a, r),
        Pair::P13 => applied::<0, 2, 1>(a, r),
        Pair::P23 => applied::<1, 2, 0>(a, r),
    }
}
