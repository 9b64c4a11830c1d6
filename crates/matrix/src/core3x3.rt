// What is computed with a symmetric 3x3 alone, in the crate's order of operations. Real is f64 (float::width).
ghost use Rattle.std.specs.Prelude.{◌≡◌};
ghost use Rattle.float.specs.Width.{F};
ghost use Rattle.matrix.specs.Answer.{Outcome, answered, scalar};
ghost use Rattle.matrix.specs.Codes.{code_of};
ghost use Rattle.matrix.specs.Places.{zeros};
ghost use Rattle.matrix.specs.Arithmetic.{row_of, sym_times_of, sym_product_of, sym_mul_of, quad_of, quad_judged_of, quad_form_of, norm_of, norm_fro_of};

use crate::answers::{judge, judge_all, put};
use crate::codes::Refusal;
use crate::symmetric::Sym3;
use float::root::root;
use float::sign::{all_finite, both_finite, three_finite};
use float::width::Real;

// a x0 + b x1 + c x2
fn row(a: Real, b: Real, c: Real, x: [Real; 3]) -> Real
    ensures { result ≡ row_of F a b c x }
{
    (a * x[0]) + (b * x[1]) + (c * x[2])
}

// H x
fn times(h: Sym3, x: [Real; 3]) -> [Real; 3]
    ensures { result ≡ sym_times_of F h.«data» x }
{
    [
        row(h.data[0], h.data[1], h.data[3], x),
        row(h.data[1], h.data[2], h.data[4], x),
        row(h.data[3], h.data[4], h.data[5], x),
    ]
}

// y' H x
fn quad(h: Sym3, y: [Real; 3], x: [Real; 3]) -> Real
    ensures { result ≡ quad_of F h.«data» y x }
{
    let mut out = 0.0;
    out += y[0] * row(h.data[0], h.data[1], h.data[3], x);
    out += y[1] * row(h.data[1], h.data[2], h.data[4], x);
    out += y[2] * row(h.data[3], h.data[4], h.data[5], x);
    out
}

// The squares of all nine numbers, and their root.
fn norm(h: Sym3) -> Real
    ensures { result ≡ norm_of F h.«data» }
{
    let mut sumsq = 0.0;
    sumsq += h.data[0] * h.data[0] + h.data[2] * h.data[2] + h.data[5] * h.data[5];
    sumsq += (h.data[1] * h.data[1] + h.data[3] * h.data[3] + h.data[4] * h.data[4]) * 2.0;
    root(sumsq)
}

// y' H x, judged before and after.
fn quad_judged(h: Sym3, y: [Real; 3], x: [Real; 3]) -> Result<Real, Refusal>
    ensures { scalar F result ≡ quad_judged_of F h.«data» y x }
{
    if three_finite(&h.data, &y, &x) {
        judge(quad(h, y, x))
    } else {
        Err(Refusal::InputNotFinite)
    }
}

impl Sym3 {
    // H x, judged before and after.
    fn product(self, x: [Real; 3]) -> Result<[Real; 3], Refusal>
        ensures { answered (zeros F 3) result ≡ sym_product_of F self.«data» x }
    {
        if both_finite(&self.data, &x) {
            judge_all(times(self, x))
        } else {
            Err(Refusal::InputNotFinite)
        }
    }

    // y = H x, on the first three places of slices of three or more.
    pub fn mul(self, y: &mut [Real], x: &[Real]) -> Result<(), Refusal>
        ensures { Outcome (sym_mul_of F self.«data» x.now y.old) (code_of result) y.new }
    {
        if y.len() < 3 {
            return Err(Refusal::OutputLength);
        }
        let Some(x) = x.first_chunk::<3>() else {
            return Err(Refusal::InputLength);
        };
        put(y, self.product(*x))
    }

    // y' H x, on the first three places of slices of three or more.
    pub fn quad_form(self, y: &[Real], x: &[Real]) -> Result<Real, Refusal>
        ensures { scalar F result ≡ quad_form_of F self.«data» y.now x.now }
    {
        let (Some(y), Some(x)) = (y.first_chunk::<3>(), x.first_chunk::<3>()) else {
            return Err(Refusal::InputLength);
        };
        quad_judged(self, *y, *x)
    }

    pub fn norm_fro(self) -> Result<Real, Refusal>
        ensures { scalar F result ≡ norm_fro_of F self.«data» }
    {
        if all_finite(&self.data) {
            judge(norm(self))
        } else {
            Err(Refusal::InputNotFinite)
        }
    }
}
