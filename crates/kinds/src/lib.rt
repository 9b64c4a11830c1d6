// The eight kinds: which numbers each uses, which kernel answers it, and whether its matrix is scaled.
#![tactic(auto)]

pub mod coded;
pub mod table;
pub mod ways;
pub mod work;
