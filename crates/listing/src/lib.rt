// The listing of a tally, as text.
#![tactic(auto)]

pub mod page;
mod sums;
mod text;
