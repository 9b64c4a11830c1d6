// Symmetric matrices of sizes 2 and 3 by their upper triangle, column by column: A11, A12, A22, A13, A23, A33. Real is f64 (float::width).
ghost use Rattle.std.specs.Prelude.{◌≡◌, ◌≤◌};
ghost use Rattle.float.specs.Width.{F};
ghost use Rattle.matrix.specs.Answer.{place, entry};
ghost use Rattle.matrix.specs.Places.{zeros, triangular, packed_index};
ghost use Rattle.matrix.specs.Indexed.{index_of, read_of, write_of, written, packed_or};
ghost use Rattle.matrix.specs.Symmetric.{sym2, sym3};
ghost use Rattle.matrix.specs.Arithmetic.{scaled_from_of};

use crate::answers::{Unchanged, judge_all};
use crate::codes::Refusal;
use crate::shape::DenseMatrixSymN;
use crate::square::Size;
use float::sign::both_finite;
use float::width::Real;

pub type Sym2 = DenseMatrixSymN<2, 3>;

pub type Sym3 = DenseMatrixSymN<3, 6>;

// 1 + 2 + .. + n, of a place of up to the size 3.
fn triangular_number(n: usize) -> usize
    requires { n ≤ 3 }
    ensures { result ≡ triangular n }
{
    n * (n + 1) / 2
}

// `dim`, `size`, `index` and `index_mut` stand for either storage, as in the crate: what they promise names the storage's own index.
impl<const N: usize, const S: usize> DenseMatrixSymN<N, S> {
    pub fn dim(self) -> usize
        ensures { result ≡ N }
    {
        N
    }

    pub fn size(self) -> Size
        ensures { result ≡ record { rows = N; cols = N } }
    {
        Size { rows: N, cols: N }
    }

    // The place of (r, c), which is also that of (c, r).
    pub fn index_linear(self, r: usize, c: usize) -> Option<usize>
        ensures { place result ≡ index_of N r c (packed_index r c) }
    {
        if r < N && c < N {
            Some(r.min(c) + triangular_number(r.max(c)))
        } else {
            None
        }
    }

    // The number at (r, c), which is also the one at (c, r).
    pub fn index(self, r: usize, c: usize) -> Option<Real>
        ensures { entry F result ≡ read_of F N r c (packed_index r c) self.entry.«data» }
    {
        let i = self.index_linear(r, c)?;
        Some(self.data[i])
    }

    // The matrix with x at (r, c) and (c, r).
    pub fn index_mut(self, r: usize, c: usize, x: Real) -> Result<Self, Unchanged<Self>>
        ensures { written result ≡ write_of N r c (packed_index r c) x self.entry.«data» }
    {
        let mut data = self.data;
        let Some(i) = self.index_linear(r, c) else {
            return Err(Unchanged {
                why: Refusal::Outside,
                matrix: DenseMatrixSymN { data },
            });
        };
        data[i] = x;
        Ok(DenseMatrixSymN { data })
    }

    pub fn copy_from(self, src: Self) -> Self
        ensures { result ≡ src.entry }
    {
        src
    }

    // c times each number of b.
    pub fn scaled_from(c: Real, b: Self) -> Result<Self, Refusal>
        ensures { packed_or (zeros F S) result ≡ scaled_from_of F N c b.entry.«data» }
    {
        if !both_finite(&[c], &b.data) {
            return Err(Refusal::InputNotFinite);
        }
        let mut data = b.data;
        for x in &mut data {
            *x = c * *x;
        }
        let data = judge_all(data)?;
        Ok(DenseMatrixSymN { data })
    }
}

// Without a matrix at hand nothing ties S to N, so each size has its own.
impl Sym2 {
    pub fn zeros() -> Self
        ensures { result ≡ sym2 (zeros F 3) }
    {
        Sym2 { data: [0.0; 3] }
    }
}

impl Sym3 {
    pub fn zeros() -> Self
        ensures { result ≡ sym3 (zeros F 6) }
    {
        Sym3 { data: [0.0; 6] }
    }
}
