// A whole string in one call: the singular values of up to 64 matrices, on lent rows of structs and on bytes.
#![tactic(auto)]

pub mod bytes;
pub mod rows;
