// The 3x3 call: at most 25 two-sided rotations of the largest pair, until all sums of a pair's magnitudes are under 2^-44. Real is f64 (float::width).
ghost use Rattle.std.specs.Prelude.{◌≡◌, ◌<◌};
ghost use Rattle.std.specs.Float.Ieee.{lt};
ghost use Rattle.float.specs.Width.{F};
ghost use Rattle.float.specs.Constants.{limit_f};
ghost use Rattle.matrix.specs.Codes.{told};
ghost use Rattle.jacobi.specs.Blind.{marked};
ghost use Rattle.svd.specs.Pairs.{pair_of};
ghost use Rattle.svd.specs.Order.{factors3};
ghost use Rattle.svd.specs.Svd3x3.{working, of_working, settled_of, watched_step_of, watched_last_of, whole_svd, refused_svd, factors_of, svd_of};

use crate::order::{Factors3, fix_order_and_signs_3x3};
use crate::pairs::{apply_two_sided_rotation, find_largest_off_diag_nonsym, rotation_of};
use float::sign::{all_finite, three_finite};
use float::width::{LIMIT, Real};
use jacobi::made::Made;
use jacobi::pairs::{OffDiag, Pair, turn_columns};
use matrix::codes::Refusal;
use matrix::square::Mat3;

// A working state, and whether a rotation made so far was blind.
#[derive(Clone, Copy)]
pub struct Working {
    pub a: Mat3,
    pub u: Mat3,
    pub v: Mat3,
    pub made: Made,
    pub blind: bool,
}

#[derive(Clone, Copy)]
pub struct Svd3 {
    pub made: Made,
    pub settled: bool,
    pub values: [Real; 3],
    pub u: Mat3,
    pub v: Mat3,
    pub worked: Mat3,
}

// Strictly under the crate's limit, 256 times the distance from 1 to the next number: 2^-44 (dense3x3/svd.rs, lines 18 and 25).
fn under_limit(largest: OffDiag) -> bool
    ensures { result ≡ lt largest.size (limit_f F) }
{
    largest.size < LIMIT
}

// The mark: no rotation was blind, and all sums of a pair's magnitudes are strictly under 2^-44.
#[tactic(auto, unfolding(crate::specs::Svd3x3::settled_of))]
fn is_settled(blind: bool, a: Mat3) -> bool
    ensures { result ≡ marked blind (settled_of F a.«data») }
{
    !blind && under_limit(find_largest_off_diag_nonsym(a))
}

// The rotations that a call may make (line 21).
const MOST: u8 = 25;

// One rotation, of the largest pair p (lines 28 to 36).
#[tactic(auto, unfolding(crate::specs::Svd3x3::step_of, crate::specs::Pairs::blind_at))]
fn rotated(w: Working, p: Pair) -> Working
    requires { (w.made.count < 25) × (p ≡ pair_of F w.a.«data») }
    ensures { result ≡ working (watched_step_of F (of_working w)) }
{
    let r = rotation_of(w.a, p);
    Working {
        a: apply_two_sided_rotation(w.a, p, r),
        u: turn_columns(w.u, p, r.cl, r.sl),
        v: turn_columns(w.v, p, r.cr, r.sr),
        made: Made {
            count: w.made.count + 1,
        },
        blind: w.blind | r.is_blind(),
    }
}

// The run (lines 15 to 37).
fn work(a: Mat3) -> Working
    ensures { result ≡ working (watched_last_of F a.«data») }
{
    let identity = Mat3::zeros().set_identity();
    let mut w = Working {
        a,
        u: identity,
        v: identity,
        made: Made { count: 0 },
        blind: false,
    };
    for _round in 0..MOST {
        let largest = find_largest_off_diag_nonsym(w.a);
        if under_limit(largest) {
            break;
        }
        w = rotated(w, largest.pair);
    }
    w
}

// The diagonal's values in order, with their columns (line 39).
#[tactic(auto, unfolding(crate::specs::Svd3x3::factors_of))]
fn factors(w: Working) -> Factors3
    ensures { result ≡ factors3 (factors_of (of_working w).state) }
{
    fix_order_and_signs_3x3(w.a.data[0], w.a.data[4], w.a.data[8], w.u, w.v)
}

// Values in descending order, with the columns of U and V (lines 11 to 40). The values are magnitudes of numbers of the last matrix, so that its test is theirs
// too.
#[tactic(auto, unfolding(crate::specs::Svd3x3::svd_of, crate::specs::Svd3x3::end_of, float::specs::Judged::judged))]
pub fn svd(a: Mat3) -> Result<Svd3, Refusal>
    ensures { told (refused_svd F) whole_svd result ≡ svd_of F a.«data» }
{
    if !all_finite(&a.data) {
        return Err(Refusal::InputNotFinite);
    }
    let w = work(a);
    let x = factors(w);
    if !three_finite(&w.a.data, &x.u.data, &x.v.data) {
        return Err(Refusal::AnswerNotFinite);
    }
    Ok(Svd3 {
        made: w.made,
        settled: is_settled(w.blind, w.a),
        values: x.values,
        u: x.u,
        v: x.v,
        worked: w.a,
    })
}
