// Cholesky factors of symmetric 2x2 and 3x3 matrices without pivoting, and the solutions that they give.
#![tactic(auto)]

pub mod answers;
pub mod cholesky2x2;
pub mod cholesky3x3;
pub mod pivot;
mod unrolled;
