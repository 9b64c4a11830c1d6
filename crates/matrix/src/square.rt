// Square matrices of sizes 2 and 3, their numbers column by column. Real is f64 (float::width).
ghost use Rattle.std.specs.Prelude.{◌≡◌, ◌<◌, ℕ, Float, eqb};
ghost use Rattle.std.specs.Float.Ieee.{neg, mul};
ghost use Rattle.float.specs.Choice.{pick};
ghost use Rattle.float.specs.Constants.{zero_f, one_f};
ghost use Rattle.float.specs.Width.{F};
ghost use Rattle.matrix.specs.Answer.{Outcome, answered, place, entry};
ghost use Rattle.matrix.specs.Codes.{code_of};
ghost use Rattle.matrix.specs.Places.{zeros, at, square_index};
ghost use Rattle.matrix.specs.Indexed.{index_of, read_of, write_of, moved, swap_columns_of, flip_column_of};
ghost use Rattle.matrix.specs.Square.{mat2, mat3, square_with, square_of, entry_of, identity_of, transpose_of, exchanged, exchange_of, negate_of};
ghost use Rattle.matrix.specs.Arithmetic.{sum_of, times_of, product_of, mul_of};

use crate::answers::{Unchanged, judge_all, put};
use crate::codes::Refusal;
use crate::shape::DenseMatrixN;
use float::sign::both_finite;
use float::width::Real;

pub type Mat2 = DenseMatrixN<2, 4>;

pub type Mat3 = DenseMatrixN<3, 9>;

#[derive(Clone, Copy)]
pub struct Size {
    pub rows: usize,
    pub cols: usize,
}

impl<const N: usize, const S: usize> DenseMatrixN<N, S> {
    pub fn dim(self) -> usize
        ensures { result ≡ N }
    {
        N
    }

    pub fn size(self) -> Size
        ensures { result ≡ record { rows = N; cols = N } }
    {
        Size { rows: N, cols: N }
    }

    // The place of (r, c).
    pub fn index_linear(self, r: usize, c: usize) -> Option<usize>
        ensures { place result ≡ index_of N r c (square_index N r c) }
    {
        if r < N && c < N {
            // past both tests the place is below S, so nothing overflows
            Some(r + c * N)
        } else {
            None
        }
    }

    // The number at (r, c).
    pub fn index(self, r: usize, c: usize) -> Option<Real>
        ensures { entry F result ≡ read_of F N r c (square_index N r c) self.entry.«data» }
    {
        let i = self.index_linear(r, c)?;
        Some(self.data[i])
    }

    // The matrix with x at (r, c).
    pub fn index_mut(self, r: usize, c: usize, x: Real) -> Result<Self, Unchanged<Self>>
        ensures { moved result ≡ write_of N r c (square_index N r c) x self.entry.«data» }
    {
        let mut data = self.data;
        let Some(i) = self.index_linear(r, c) else {
            return Err(Unchanged {
                why: Refusal::Outside,
                matrix: DenseMatrixN { data },
            });
        };
        data[i] = x;
        Ok(DenseMatrixN { data })
    }

    // The number at (r, c), which is inside.
    fn at(&self, r: usize, c: usize) -> Real
        requires { (r < N) × (c < N) }
        ensures { result ≡ entry_of N self.now.«data» r c }
    {
        self.data[r + c * N]
    }

    // The matrix of the numbers g(r, c).
    fn of_entries<G: Fn(usize, usize) -> Real>(self, g: G) -> Self
        requires { (r c : ℕ) → r < N → c < N → G.pre g r c }
        ensures { (v : ℕ → ℕ → Float) → ((r c : ℕ) (x : Float) → r < N → c < N → G.post g r c x → x ≡ v r c)
            → result ≡ square_with self.entry.square (square_of N v) }
    {
        let mut data = self.data;
        for (i, x) in data.iter_mut().enumerate() {
            *x = g(i % N, i / N);
        }
        DenseMatrixN { data }
    }

    pub fn set_identity(self) -> Self
        ensures { result ≡ square_with self.entry.square (identity_of F N) }
    {
        self.of_entries(
            |r, c|
                ensures { result ≡ pick (eqb r c) (one_f F) (zero_f F) }
            { if r == c { 1.0 } else { 0.0 } },
        )
    }

    pub fn transpose_in_place(self) -> Self
        ensures { result ≡ square_with self.entry.square (transpose_of N self.entry.«data») }
    {
        self.of_entries(
            |r, c|
                requires { (r < N) × (c < N) }
                ensures { result ≡ entry_of N self.«data» c r }
            { self.at(c, r) },
        )
    }

    // Column i with the other sign.
    fn negated(self, i: usize) -> Self
        ensures { result ≡ square_with self.entry.square (negate_of N i self.entry.«data») }
    {
        self.of_entries(
            |r, c|
                requires { (r < N) × (c < N) }
                ensures { result ≡ pick (eqb c i) (neg (entry_of N self.«data» r c)) (entry_of N self.«data» r c) }
            {
                if c == i {
                    -self.at(r, c)
                } else {
                    self.at(r, c)
                }
            },
        )
    }

    // Columns i and j in each other's place.
    fn exchanged(self, i: usize, j: usize) -> Self
        requires { (i < N) × (j < N) }
        ensures { result ≡ square_with self.entry.square (exchange_of N i j self.entry.«data») }
    {
        self.of_entries(
            |r, c|
                requires { (r < N) × (c < N) × (i < N) × (j < N) }
                ensures { result ≡ entry_of N self.«data» r (exchanged i j c) }
            {
                if c == i {
                    self.at(r, j)
                } else if c == j {
                    self.at(r, i)
                } else {
                    self.at(r, c)
                }
            },
        )
    }

    pub fn flip_column(self, i: usize) -> Result<Self, Unchanged<Self>>
        ensures { moved result ≡ flip_column_of N i self.entry.«data» }
    {
        if i < N {
            Ok(self.negated(i))
        } else {
            Err(Unchanged {
                why: Refusal::Outside,
                matrix: self,
            })
        }
    }

    pub fn swap_columns(self, i: usize, j: usize) -> Result<Self, Unchanged<Self>>
        ensures { moved result ≡ swap_columns_of N i j self.entry.«data» }
    {
        if i < N && j < N {
            Ok(self.exchanged(i, j))
        } else {
            Err(Unchanged {
                why: Refusal::Outside,
                matrix: self,
            })
        }
    }

    // The kernels move columns that every matrix has: by name, since a number could be outside, and a call by name can't fail.
    pub fn flip1(self) -> Self
        ensures { result ≡ square_with self.entry.square (negate_of N 0 self.entry.«data») }
    {
        self.negated(0)
    }

    pub fn flip2(self) -> Self
        ensures { result ≡ square_with self.entry.square (negate_of N 1 self.entry.«data») }
    {
        self.negated(1)
    }

    pub fn swap12(self) -> Self
        ensures { result ≡ square_with self.entry.square (exchange_of N 0 1 self.entry.«data») }
    {
        self.exchanged(0, 1)
    }

    // Row r of A x, from +0 on, in the order of the columns.
    fn row_times(&self, r: usize, x: &[Real; N]) -> Real
        requires { r < N }
        ensures { result ≡ sum_of F N (λ c. mul F (entry_of N self.now.«data» r c) (at x.now c)) }
    {
        let mut sum = 0.0;
        for c in 0..N {
            let entry = self.at(r, c);
            sum += entry * x[c];
        }
        sum
    }

    fn times(self, x: [Real; N]) -> [Real; N]
        ensures { result ≡ times_of F N self.entry.«data» x.entry }
    {
        let mut y = x;
        for (r, sum) in y.iter_mut().enumerate() {
            *sum = self.row_times(r, &x);
        }
        y
    }

    // A x, judged before and after.
    fn product(self, x: [Real; N]) -> Result<[Real; N], Refusal>
        ensures { answered (zeros F N) result ≡ product_of F N self.entry.«data» x.entry }
    {
        if both_finite(&self.data, &x) {
            judge_all(self.times(x))
        } else {
            Err(Refusal::InputNotFinite)
        }
    }

    // y = A x, on slices of N places.
    pub fn mul(self, y: &mut [Real], x: &[Real]) -> Result<(), Refusal>
        ensures { Outcome (mul_of F N self.entry.«data» x.now y.old) (code_of result) y.new }
    {
        if y.len() != N {
            return Err(Refusal::OutputLength);
        }
        let Some(x) = x.as_array::<N>() else {
            return Err(Refusal::InputLength);
        };
        put(y, self.product(*x))
    }
}

// Without a matrix at hand nothing ties S to N, so each size has its own.
impl Mat2 {
    pub fn zeros() -> Self
        ensures { result ≡ mat2 (zeros F 4) }
    {
        Mat2 { data: [0.0; 4] }
    }
}

impl Mat3 {
    pub fn zeros() -> Self
        ensures { result ≡ mat3 (zeros F 9) }
    {
        Mat3 { data: [0.0; 9] }
    }

    pub fn flip3(self) -> Self
        ensures { result ≡ mat3 (negate_of 3 2 self.«data») }
    {
        self.negated(2)
    }

    pub fn swap13(self) -> Self
        ensures { result ≡ mat3 (exchange_of 3 0 2 self.«data») }
    {
        self.exchanged(0, 2)
    }

    pub fn swap23(self) -> Self
        ensures { result ≡ mat3 (exchange_of 3 1 2 self.«data») }
    {
        self.exchanged(1, 2)
    }
}
