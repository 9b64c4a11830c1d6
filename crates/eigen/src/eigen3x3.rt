// The 3x3 call: at most 25 rotations of the largest pair, until all that lies beside the diagonal is under 2^-44. Real is f64 (float::width).
ghost use Rattle.std.specs.Prelude.{◌≡◌};
ghost use Rattle.std.specs.Float.Ieee.{lt};
ghost use Rattle.float.specs.Width.{F};
ghost use Rattle.float.specs.Constants.{limit_f};
ghost use Rattle.matrix.specs.Codes.{told};
ghost use Rattle.jacobi.specs.Blind.{marked};
ghost use Rattle.eigen.specs.Eigen3x3.{of_working, run_carried, settled_of, watched_last_of, sorted, ranked_of, refused_eigen, whole_eigen, eigen_of};
ghost use Rattle.eigen.specs.EigVals.{of_bare, bare_watched_last_of, refused_values, whole_eig_vals, eigvals_of};

use crate::order::{Sorted, sort3, sort3_with_columns};
use crate::pairs::{Carried, find_largest_off_diag, rotate_pair};
use float::sign::{all_finite, both_finite};
use float::width::{LIMIT, Real};
use jacobi::made::Made;
use jacobi::pairs::OffDiag;
use matrix::codes::Refusal;
use matrix::square::Mat3;
use matrix::symmetric::Sym3;

// A working state with what is carried along, and whether a rotation made so far was blind.
#[derive(Clone, Copy)]
pub struct Working<V> {
    pub a: Sym3,
    pub v: V,
    pub made: Made,
    pub blind: bool,
}

#[derive(Clone, Copy)]
pub struct Eigen3 {
    pub made: Made,
    pub settled: bool,
    pub values: [Real; 3],
    pub vectors: Mat3,
    pub worked: Sym3,
}

#[derive(Clone, Copy)]
pub struct EigVals3 {
    pub made: Made,
    pub settled: bool,
    pub values: [Real; 3],
    pub worked: Sym3,
}

// Strictly under the crate's limit, 256 times the distance from 1 to the next number: 2^-44 (dense3x3/eigen.rs, lines 214 and 221).
fn under_limit(largest: OffDiag) -> bool
    ensures { result ≡ lt largest.size (limit_f F) }
{
    largest.size < LIMIT
}

impl<V: Copy> Working<V> {
    // The mark: no rotation was blind, and all that lies beside the diagonal is strictly under 2^-44.
    #[tactic(auto, unfolding(crate::specs::Eigen3x3::settled_of))]
    fn is_settled(self) -> bool
        ensures { result ≡ marked self.blind (settled_of F self.a.«data») }
    {
        if self.blind {
            return false;
        }
        under_limit(find_largest_off_diag(self.a))
    }
}

// The rotations that a call may make.
const MOST: u8 = 25;

// The run (lines 210 to 236).
fn run<V: Carried>(a: Sym3, v: V) -> Working<V>
    ensures { result ≡ run_carried V.turn a v }
{
    let mut w = Working {
        a,
        v,
        made: Made { count: 0 },
        blind: false,
    };
    for count in 0..MOST {
        let largest = find_largest_off_diag(w.a);
        if under_limit(largest) {
            return w;
        }
        let t = rotate_pair(w.a, largest.pair);
        w = Working {
            a: t.a,
            v: w.v.turned(largest.pair, t.r),
            made: Made { count: count + 1 },
            blind: w.blind | t.blind,
        };
    }
    w
}

// The run with vectors.
fn work(a: Sym3) -> Working<Mat3>
    ensures { of_working result ≡ watched_last_of F a.«data» }
{
    run(a, Mat3::zeros().set_identity())
}

// The run without vectors.
fn work_values(a: Sym3) -> Working<()>
    ensures { of_bare result ≡ bare_watched_last_of F a.«data» }
{
    run(a, ())
}

// The diagonal in order, with its columns (lines 238 to 241).
#[tactic(auto, unfolding(crate::specs::Eigen3x3::ranked_of))]
fn rank(w: Working<Mat3>) -> Sorted
    ensures { result ≡ sorted (ranked_of (of_working w).state) }
{
    sort3_with_columns(w.a.data[0], w.a.data[2], w.a.data[5], w.v)
}

// Values in ascending order, with their vectors. The values are numbers of the last matrix, so that its test is theirs too.
#[tactic(auto, unfolding(crate::specs::Eigen3x3::eigen_of, crate::specs::Eigen3x3::end_of, float::specs::Judged::judged))]
pub fn eigen_jacobi(a: Sym3) -> Result<Eigen3, Refusal>
    ensures { told (refused_eigen F) whole_eigen result ≡ eigen_of F a.«data» }
{
    if !all_finite(&a.data) {
        return Err(Refusal::InputNotFinite);
    }
    let w = work(a);
    let x = rank(w);
    if !both_finite(&w.a.data, &x.columns.data) {
        return Err(Refusal::AnswerNotFinite);
    }
    Ok(Eigen3 {
        made: w.made,
        settled: w.is_settled(),
        values: x.values,
        vectors: x.columns,
        worked: w.a,
    })
}

// Values in ascending order: the diagonal of the last matrix (lines 238 to 243).
#[tactic(auto, unfolding(crate::specs::EigVals::eigvals_of, crate::specs::EigVals::bare_end_of, float::specs::Judged::judged))]
pub fn eigvals_jacobi(a: Sym3) -> Result<EigVals3, Refusal>
    ensures { told (refused_values F) whole_eig_vals result ≡ eigvals_of F a.«data» }
{
    if !all_finite(&a.data) {
        return Err(Refusal::InputNotFinite);
    }
    let w = work_values(a);
    if !all_finite(&w.a.data) {
        return Err(Refusal::AnswerNotFinite);
    }
    Ok(EigVals3 {
        made: w.made,
        settled: w.is_settled(),
        values: sort3(w.a.data[0], w.a.data[2], w.a.data[5]),
        worked: w.a,
    })
}
