// Each kind's numbers handed to its kernel, and the kernel's answer as a record has it. Real is f64 (float::width).
ghost use Rattle.std.specs.Prelude.{◌≡◌, ◌≤◌, length};
ghost use Rattle.float.specs.Width.{F};
ghost use Rattle.cholesky.specs.Error.{why_of, pivot_number};
ghost use Rattle.eigen.specs.Eigen2x2.{whole_eigen2};
ghost use Rattle.eigen.specs.Eigen3x3.{whole_eigen};
ghost use Rattle.svd.specs.Svd2x2.{whole_svd2};
ghost use Rattle.svd.specs.Svd3x3.{whole_svd};
ghost use Rattle.kinds.specs.Work.{first_of, padded, from_eigen2, from_eigen3, from_svd2, from_svd3, from_solved, plain_of};
ghost use Rattle.kinds.specs.Read.{asked, whole_worked, worked};

use crate::table::{Kind, Way};
use cholesky::answers::{FactorError, Solved};
use cholesky::cholesky2x2::cholesky_2x2_explicit_factor;
use cholesky::cholesky3x3::cholesky_3x3_explicit_factor;
use eigen::eigen2x2::Eigen2;
use eigen::eigen3x3::{Eigen3, eigen_jacobi};
use float::width::Real;
use matrix::codes::Refusal;
use matrix::square::{Mat2, Mat3};
use matrix::symmetric::{Sym2, Sym3};
use svd::svd2x2::Svd2;
use svd::svd3x3::Svd3;

// What a request asks: its kind, its way, and its numbers. A kind that does not scale is worked as given, whatever the way.
#[derive(Clone, Copy)]
pub struct Asked {
    pub kind: Kind,
    pub way: Way,
    pub nine: [Real; 9],
    pub three: [Real; 3],
}

// Three values, nine numbers left and nine right, with count and mark.
#[derive(Clone, Copy)]
pub struct Worked {
    pub count: u8,
    pub settled: bool,
    pub values: [Real; 3],
    pub left: [Real; 9],
    pub right: [Real; 9],
}

// Why there is no answer, and the number of the pivot that has no root; 0 where it is not for a pivot.
#[derive(Clone, Copy, Debug, PartialEq, Eq)]
pub struct Refused {
    pub why: Refusal,
    pub pivot: u8,
}

impl From<Refusal> for Refused {
    ghost from_gives = { λ r x. x ≡ record { why = r; pivot = 0 } };

    fn from(why: Refusal) -> Refused {
        Refused { why, pivot: 0 }
    }
}

impl From<FactorError> for Refused {
    ghost from_gives = { λ e x. x ≡ record { why = why_of e; pivot = pivot_number e } };

    fn from(e: FactorError) -> Refused {
        Refused {
            why: e.refusal(),
            pivot: e.pivot(),
        }
    }
}

// The numbers in the first of N places, and +0 in the others.
fn padded<const K: usize, const N: usize>(x: [Real; K]) -> [Real; N]
    requires { K ≤ N }
    ensures { result ≡ padded F N K x.entry }
{
    let mut y = [0.0; N];
    y[..K].copy_from_slice(&x);
    y
}

// The first N of the numbers.
fn first<const N: usize>(x: &[Real]) -> [Real; N]
    requires { N ≤ length x.now }
    ensures { result ≡ first_of N x.now }
{
    let mut y = [0.0; N];
    y.copy_from_slice(&x[..N]);
    y
}

impl From<Eigen2> for Worked {
    ghost from_gives = { λ r w. whole_worked w ≡ from_eigen2 F (whole_eigen2 r) };

    fn from(r: Eigen2) -> Worked {
        Worked {
            count: 0,
            settled: r.settled,
            values: padded(r.values),
            left: padded(r.vectors.data),
            right: [0.0; 9],
        }
    }
}

impl From<Eigen3> for Worked {
    ghost from_gives = { λ r w. whole_worked w ≡ from_eigen3 F (whole_eigen r) };

    fn from(r: Eigen3) -> Worked {
        let values = r.values;
        let left = r.vectors.data;
        Worked {
            count: r.made.count,
            settled: r.settled,
            values,
            left,
            right: [0.0; 9],
        }
    }
}

impl From<Svd2> for Worked {
    ghost from_gives = { λ r w. whole_worked w ≡ from_svd2 F (whole_svd2 r) };

    fn from(r: Svd2) -> Worked {
        Worked {
            count: 0,
            settled: r.settled,
            values: padded(r.values),
            left: padded(r.u.data),
            right: padded(r.v.data),
        }
    }
}

impl From<Svd3> for Worked {
    ghost from_gives = { λ r w. whole_worked w ≡ from_svd3 F (whole_svd r) };

    fn from(r: Svd3) -> Worked {
        let values = r.values;
        let left = r.u.data;
        let right = r.v.data;
        Worked {
            count: r.made.count,
            settled: r.settled,
            values,
            left,
            right,
        }
    }
}

// A factor and a solution that are whole; a factor alone has a solution of no numbers.
fn solved<const K: usize, const M: usize>(factor: [Real; K], solution: [Real; M]) -> Worked
    requires sizes { (K ≤ 9) × (M ≤ 3) }
    ensures { whole_worked result ≡ from_solved F K M (record { code = 0; pivot = 0; factor = factor.entry; solution = solution.entry }) }
{
    Worked {
        count: 0,
        settled: true,
        values: padded(solution),
        left: padded(factor),
        right: [0.0; 9],
    }
}

// The answer of a kind to its numbers as they are.
#[tactic(auto, unfolding(crate::specs::Work::answered_by, crate::specs::Work::from_factor))]
pub(crate) fn plain(a: Asked) -> Result<Worked, Refused>
    ensures { worked F result ≡ plain_of F (asked a) }
{
    let nine = &a.nine;
    let three = &a.three;
    let w = match a.kind {
        Kind::Eigen2x2 => eigen::eigen2x2::eigen(Sym2 { data: first(nine) })?.into(),
        Kind::Eigen3x3 => eigen_jacobi(Sym3 { data: first(nine) })?.into(),
        Kind::Svd2x2 => svd::svd2x2::svd(Mat2 { data: first(nine) })?.into(),
        Kind::Svd3x3 => svd::svd3x3::svd(Mat3 { data: first(nine) })?.into(),
        Kind::Factor2x2 => {
            let mut l = Sym2 { data: [0.0; 3] };
            cholesky_2x2_explicit_factor(&mut l, Sym2 { data: first(nine) })?;
            solved(l.data, [])
        }
        Kind::Factor3x3 => {
            let mut l = Sym3 { data: [0.0; 6] };
            cholesky_3x3_explicit_factor(&mut l, Sym3 { data: first(nine) })?;
            solved(l.data, [])
        }
        Kind::Solve2x2 => {
            let Solved { factor, solution } = cholesky::cholesky2x2::factor_and_solve(
                Sym2 { data: first(nine) },
                first(three),
            )?;
            solved(factor.data, solution)
        }
        Kind::Solve3x3 => {
            let Solved { factor, solution } = cholesky::cholesky3x3::factor_and_solve(
                Sym3 { data: first(nine) },
                first(three),
            )?;
            solved(factor.data, solution)
        }
    };
    Ok(w)
}
