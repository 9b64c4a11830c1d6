// Words and numbers in bytes: what every format of records is made of.
#![tactic(auto)]

pub mod bytes;
