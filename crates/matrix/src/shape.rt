// How a square and a symmetric matrix are stored, for any size: a const argument can't compute S of N, so each type keeps what ties the two. The fact
// is a test, which computes to nothing at a known size: there a matrix is its numbers, and nothing else. Real is f64 (float::width).
ghost use Rattle.matrix.specs.Places.{IsSquare, IsPacked};

use float::width::Real;

// The N * N numbers of a square matrix, column by column.
#[derive(Clone, Copy)]
pub struct DenseMatrixN<const N: usize, const S: usize> {
    pub data: [Real; S],
    pub ghost square: { IsSquare N S },
}

// The upper triangle of a symmetric matrix, column by column: A11, A12, A22, A13, A23, A33.
#[derive(Clone, Copy)]
pub struct DenseMatrixSymN<const N: usize, const S: usize> {
    pub data: [Real; S],
    pub ghost packed: { IsPacked N S },
}
