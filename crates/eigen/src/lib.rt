// Eigenvalues and eigenvectors of symmetric 2x2 and 3x3 matrices by Jacobi rotations.
#![tactic(auto)]

pub mod eigen2x2;
pub mod eigen3x3;
pub mod order;
pub mod pairs;
