// Singular values from what lies on the diagonal: signs go to the columns of U, then U and V follow the values down. Real is f64 (float::width).
ghost use Rattle.std.specs.Prelude.{◌≡◌, ◌<◌};
ghost use Rattle.jacobi.specs.Order.{ordered, descending};
ghost use Rattle.svd.specs.Order.{factors2, factors3, factors_with, of_factors, signed_at, exchange_both, order_of, order2_of};

use float::sign::{magnitude, sign_bit};
use float::width::Real;
use matrix::shape::DenseMatrixN;
use matrix::square::{Mat2, Mat3};

// Values, and the columns of U and V that belong to them.
#[derive(Clone, Copy)]
pub struct Decomposed<const N: usize, const S: usize> {
    pub values: [Real; N],
    pub u: DenseMatrixN<N, S>,
    pub v: DenseMatrixN<N, S>,
}

pub type Factors2 = Decomposed<2, 4>;

pub type Factors3 = Decomposed<3, 9>;

impl<const N: usize, const S: usize> Decomposed<N, S> {
    // The value at i by its magnitude; column i of U changes sign where it had its sign bit set, -0 too (dense3x3/svd.rs, lines 213 to 222).
    fn sign(&mut self, i: usize)
        requires { i < N }
        ensures { self.new ≡ signed_at self.old.u.square i (of_factors self.old) }
    {
        let x = self.values[i];
        self.values[i] = magnitude(x);
        if sign_bit(x) {
            self.u = self.u.flip_column(i).unwrap_or(self.u);
        }
    }

    // The values at i and j change places, with their columns of U and V, where the first is below the second (lines 225 to 243).
    fn descend(&mut self, i: usize, j: usize)
        requires { (i < N) × (j < N) }
        ensures { self.new ≡ factors_with self.old.u.square (ordered N descending (exchange_both N) i j (of_factors self.old)) }
    {
        if self.values[i] < self.values[j] {
            self.values.swap(i, j);
            self.u = self.u.swap_columns(i, j).unwrap_or(self.u);
            self.v = self.v.swap_columns(i, j).unwrap_or(self.v);
        }
    }
}

// Signs first, then the order (lines 195 to 246).
#[tactic(auto, unfolding(crate::specs::Order::order_of))]
pub fn fix_order_and_signs_3x3(a: Real, b: Real, c: Real, u: Mat3, v: Mat3) -> Factors3
    ensures { result ≡ factors3 (order_of a b c u.«data» v.«data») }
{
    let mut w = Decomposed {
        values: [a, b, c],
        u,
        v,
    };
    w.sign(0);
    w.sign(1);
    w.sign(2);
    w.descend(0, 1);
    w.descend(0, 2);
    w.descend(1, 2);
    w
}

// The same of two values (dense2x2/svd.rs, lines 25 to 69).
#[tactic(auto, unfolding(crate::specs::Order::order2_of))]
pub fn set_order_and_signs_2x2(a: Real, b: Real, u: Mat2, v: Mat2) -> Factors2
    ensures { result ≡ factors2 (order2_of a b u.«data» v.«data») }
{
    let mut w = Decomposed {
        values: [a, b],
        u,
        v,
    };
    w.sign(0);
    w.sign(1);
    w.descend(0, 1);
    w
}
