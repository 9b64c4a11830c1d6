// What the two Jacobi kernels share: the choice of a rotation, which one is blind, the three pairs of a 3x3, and what a run of rotations made.
#![tactic(auto)]

pub mod blind;
pub mod made;
pub mod pairs;
pub mod rotation;
