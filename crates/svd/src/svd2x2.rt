// The 2x2 call: one two-sided rotation is enough. Real is f64 (float::width).
ghost use Rattle.std.specs.Prelude.{◌≡◌};
ghost use Rattle.float.specs.Width.{F};
ghost use Rattle.matrix.specs.Codes.{told};
ghost use Rattle.svd.specs.Order.{factors2};
ghost use Rattle.svd.specs.Svd2x2.{whole_svd2, factors2_of, refused_svd2, svd2_of};

use crate::order::{Factors2, set_order_and_signs_2x2};
use crate::polar::{TwoSided, compute_two_sided_rotation};
use float::sign::{all_finite, three_finite};
use float::width::Real;
use matrix::codes::Refusal;
use matrix::square::Mat2;

#[derive(Clone, Copy)]
pub struct Svd2 {
    pub settled: bool,
    pub values: [Real; 2],
    pub u: Mat2,
    pub v: Mat2,
}

// The turns by columns, and the order of what they leave (dense2x2/svd.rs, lines 43 to 51).
#[tactic(auto, unfolding(crate::specs::Svd2x2::factors2_of))]
fn factors(r: TwoSided) -> Factors2
    ensures { result ≡ factors2 (factors2_of r) }
{
    let u = Mat2 {
        data: [r.cl, -r.sl, r.sl, r.cl],
    };
    let v = Mat2 {
        data: [r.cr, -r.sr, r.sr, r.cr],
    };
    set_order_and_signs_2x2(r.d1, r.d2, u, v)
}

// Values in descending order, with the columns of U and V (lines 11 to 21).
#[tactic(auto, unfolding(crate::specs::Svd2x2::svd2_of, crate::specs::Svd2x2::end2_of, float::specs::Judged::judged))]
pub fn svd(a: Mat2) -> Result<Svd2, Refusal>
    ensures { told (refused_svd2 F) whole_svd2 result ≡ svd2_of F a.«data» }
{
    if !all_finite(&a.data) {
        return Err(Refusal::InputNotFinite);
    }
    let [a11, a21, a12, a22] = a.data;
    let r = compute_two_sided_rotation(a11, a21, a12, a22);
    let x = factors(r);
    if !three_finite(&x.values, &x.u.data, &x.v.data) {
        return Err(Refusal::AnswerNotFinite);
    }
    Ok(Svd2 {
        settled: !r.is_blind(),
        values: x.values,
        u: x.u,
        v: x.v,
    })
}
