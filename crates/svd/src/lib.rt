// Singular values and vectors of 2x2 and 3x3 matrices by two-sided Jacobi rotations.
#![tactic(auto)]

pub mod order;
pub mod pairs;
pub mod polar;
pub mod svd2x2;
pub mod svd3x3;
