// Requests and their answers as bytes, one record or many in a row.
#![tactic(auto)]

pub mod answer;
pub mod layout;
pub mod request;
pub mod stream;
