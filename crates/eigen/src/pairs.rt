// The largest pair of a symmetric 3x3, and what a rotation of one makes of the matrix and the vectors. Real is f64 (float::width).
ghost use Rattle.std.specs.Prelude.{◌≡◌, ◌<◌};
ghost use Rattle.float.specs.Width.{F};
ghost use Rattle.matrix.specs.Square.{mat3};
ghost use Rattle.matrix.specs.Symmetric.{sym3};
ghost use Rattle.jacobi.specs.Pairs.{turned_of};
ghost use Rattle.jacobi.specs.declared.pairs.Pair.{Pair};
ghost use Rattle.jacobi.specs.declared.pairs.Pair.TheVariants.{P12, P13, P23};
ghost use Rattle.jacobi.specs.declared.rotation.Rotation.{Rotation};
ghost use Rattle.eigen.specs.Pairs.{elements_of, off_diag_of, pair_first_of, turned_pair, applied_of, with_vectors, with_nothing};

use float::sign::magnitude;
use float::width::Real;
use jacobi::pairs::{OffDiag, Pair, largest, turn_columns};
use jacobi::rotation::{Elements, Rotation};
use matrix::square::Mat3;
use matrix::symmetric::Sym3;

// The largest of the three, the first on ties (dense3x3/eigen.rs, lines 247 to 273).
pub fn find_largest_off_diag(a: Sym3) -> OffDiag
    ensures { result ≡ off_diag_of a.«data» }
{
    let [_, a12, _, a13, a23, _] = a.data;
    largest(magnitude(a12), magnitude(a13), magnitude(a23))
}

// The matrix with the rows and columns p and q of the pair first, and the third row k last.
fn pair_first(a: Sym3, pair: Pair) -> Sym3
    ensures { result ≡ sym3 (pair_first_of pair a.«data») }
{
    let [a11, a12, a22, a13, a23, a33] = a.data;
    let data = match pair {
        Pair::P12 => [a11, a12, a22, a13, a23, a33],
        Pair::P13 => [a11, a13, a33, a12, a23, a22],
        Pair::P23 => [a22, a23, a33, a12, a13, a11],
    };
    Sym3 { data }
}

// The three numbers that the rotation of a pair is chosen by (lines 276 to 290).
fn get_rotation_elements(a: Sym3, pair: Pair) -> Elements
    ensures { result ≡ elements_of pair a.«data» }
{
    let [app, apq, aqq, ..] = pair_first(a, pair).data;
    Elements { apq, app, aqq }
}

// A12 rotated away (lines 338 to 345).
fn apply12(a: Sym3, r: Rotation) -> Sym3
    ensures { result ≡ sym3 (applied_of F P12 r a.«data») }
{
    let [a11, a12, a22, a13, a23, a33] = a.data;
    let tau = r.s / (r.c + 1.0);
    let t_apq = r.t * a12;
    Sym3 {
        data: [
            a11 - t_apq,
            0.0,
            a22 + t_apq,
            a13 - r.s * (a23 + tau * a13),
            a23 + r.s * (a13 - tau * a23),
            a33,
        ],
    }
}

// The matrix after a rotation of the pair (lines 331 to 367, where each pair has its arm). p and q take the first two places and go back, so that each place is
// a constant: that is faster than an index.
pub fn apply_rotation(a: Sym3, pair: Pair, r: Rotation) -> Sym3
    ensures { result ≡ sym3 (applied_of F pair r a.«data») }
{
    let [bpp, bpq, bqq, bpk, bqk, bkk] = apply12(pair_first(a, pair), r).data;
    let data = match pair {
        Pair::P12 => [bpp, bpq, bqq, bpk, bqk, bkk],
        Pair::P13 => [bpp, bpk, bkk, bpq, bqk, bqq],
        Pair::P23 => [bkk, bpk, bpp, bqk, bpq, bqq],
    };
    Sym3 { data }
}

// The matrix after a rotation, the rotation, and whether it was blind.
#[derive(Clone, Copy)]
pub struct Turned {
    pub a: Sym3,
    pub r: Rotation,
    pub blind: bool,
}

// One step of the matrix: the rotation of the pair is chosen and applied (lines 226 to 230).
pub(crate) fn rotate_pair(a: Sym3, pair: Pair) -> Turned
    ensures { result ≡ turned_pair F pair a.«data» }
{
    let n = get_rotation_elements(a, pair);
    let r = n.rotation();
    Turned {
        a: apply_rotation(a, pair, r),
        r,
        blind: n.is_blind(),
    }
}

// The vectors after a rotation of the pair (lines 369 to 382).
pub fn update_eigenvectors(v: Mat3, pair: Pair, r: Rotation) -> Mat3
    ensures { result ≡ mat3 (turned_of F pair r.c r.s v.«data») }
{
    turn_columns(v, pair, r.c, r.s)
}

// What is carried along while a matrix is rotated: its vectors, or nothing.
pub(crate) trait Carried: Copy {
    ghost turn: { Pair → Rotation → Self → Self };

    fn turned(self, pair: Pair, r: Rotation) -> Self
        ensures { result ≡ turn pair r self };
}

impl Carried for Mat3 {
    ghost turn = { with_vectors };

    fn turned(self, pair: Pair, r: Rotation) -> Mat3 {
        update_eigenvectors(self, pair, r)
    }
}

impl Carried for () {
    ghost turn = { with_nothing };

    fn turned(self, _pair: Pair, _r: Rotation) {}
}
