// The 2x2 call: one rotation is enough. Real is f64 (float::width).
ghost use Rattle.std.specs.Prelude.{◌≡◌};
ghost use Rattle.float.specs.Width.{F};
ghost use Rattle.matrix.specs.Codes.{told};
ghost use Rattle.matrix.specs.Places.{at};
ghost use Rattle.eigen.specs.Eigen2x2.{axes2, blind2_of, axes_of, solved2, refused2, whole_eigen2, eigen2_of};
ghost use Rattle.eigen.specs.EigVals.{refused_values2, whole_eig_vals2, eigvals2_of};

use float::sign::{all_finite, both_finite};
use float::width::Real;
use jacobi::rotation::{Elements, Rotation};
use matrix::codes::Refusal;
use matrix::square::Mat2;
use matrix::symmetric::Sym2;

// Two values and their vectors.
#[derive(Clone, Copy)]
pub struct Axes2 {
    pub values: [Real; 2],
    pub vectors: Mat2,
}

#[derive(Clone, Copy)]
pub struct Eigen2 {
    pub settled: bool,
    pub values: [Real; 2],
    pub vectors: Mat2,
}

#[derive(Clone, Copy)]
pub struct EigVals2 {
    pub settled: bool,
    pub values: [Real; 2],
}

// The columns stay only if e1 < e2: a tie exchanges them (dense2x2/eigen.rs, lines 36 to 53).
#[tactic(auto, unfolding(crate::specs::Eigen2x2::axes_of, jacobi::specs::Order::ordered))]
fn axes(r: Rotation, e1: Real, e2: Real) -> Axes2
    ensures { result ≡ axes2 (axes_of r e1 e2) }
{
    let Rotation { c, s, .. } = r;
    if e1 < e2 {
        Axes2 {
            values: [e1, e2],
            vectors: Mat2 {
                data: [c, -s, s, c],
            },
        }
    } else {
        Axes2 {
            values: [e2, e1],
            vectors: Mat2 {
                data: [s, c, c, -s],
            },
        }
    }
}

// The three numbers that the rotation is chosen by.
fn elements(a: Sym2) -> Elements
    ensures { result ≡ record { apq = at a.«data» 1; app = at a.«data» 0; aqq = at a.«data» 2 } }
{
    let [app, apq, aqq] = a.data;
    Elements { apq, app, aqq }
}

// One rotation, and the order of what it leaves (lines 23 to 35).
#[tactic(auto, unfolding(crate::specs::Eigen2x2::solved2))]
fn eig2(a: Sym2) -> Axes2
    ensures { result ≡ axes2 (solved2 F a.«data») }
{
    let n = elements(a);
    let r = n.rotation();
    let t_apq = r.t * n.apq;
    axes(r, n.app - t_apq, n.aqq + t_apq)
}

// Whether that rotation is blind.
fn is_turn_blind(a: Sym2) -> bool
    ensures { result ≡ blind2_of F a.«data» }
{
    elements(a).is_blind()
}

// Values in ascending order, with their vectors.
#[tactic(auto, unfolding(crate::specs::Eigen2x2::eigen2_of, crate::specs::Eigen2x2::end2_of, float::specs::Judged::judged))]
pub fn eigen(a: Sym2) -> Result<Eigen2, Refusal>
    ensures { told (refused2 F) whole_eigen2 result ≡ eigen2_of F a.«data» }
{
    if !all_finite(&a.data) {
        return Err(Refusal::InputNotFinite);
    }
    let Axes2 { values, vectors } = eig2(a);
    if !both_finite(&values, &vectors.data) {
        return Err(Refusal::AnswerNotFinite);
    }
    Ok(Eigen2 {
        settled: !is_turn_blind(a),
        values,
        vectors,
    })
}

// Values in ascending order.
#[tactic(auto, unfolding(crate::specs::EigVals::eigvals2_of, crate::specs::EigVals::values_end2_of, float::specs::Judged::judged))]
pub fn eigvals(a: Sym2) -> Result<EigVals2, Refusal>
    ensures { told (refused_values2 F) whole_eig_vals2 result ≡ eigvals2_of F a.«data» }
{
    if !all_finite(&a.data) {
        return Err(Refusal::InputNotFinite);
    }
    let values = eig2(a).values;
    if !all_finite(&values) {
        return Err(Refusal::AnswerNotFinite);
    }
    Ok(EigVals2 {
        settled: !is_turn_blind(a),
        values,
    })
}
