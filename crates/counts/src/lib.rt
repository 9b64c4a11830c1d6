// A tally of an answer file: how many records of each kind have each code, how many answers are settled, how many rotations they made.
#![tactic(auto)]

pub mod cells;
pub mod known;
pub mod tally;
