// Square and symmetric matrices of sizes 2 and 3, and what is computed with them alone.
#![tactic(auto)]

pub mod answers;
pub mod codes;
pub mod core3x3;
pub mod shape;
pub mod square;
pub mod symmetric;
