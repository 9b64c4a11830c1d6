// Where everything stands in a request and in an answer, in bytes.
use float::width::NUMBER_SIZE;

pub(crate) const EVENT_SIZE: usize = 4;

pub const KIND_AT: usize = EVENT_SIZE;

pub(crate) const NUMBERS_AT: usize = 8;

// ---- a request
pub(crate) const WAY_AT: usize = 5;

pub(crate) const RESERVED_AT: usize = 6;

pub(crate) const THREE_AT: usize = NUMBERS_AT + 9 * NUMBER_SIZE;

pub const REQUEST_SIZE: usize = THREE_AT + 3 * NUMBER_SIZE;

// ---- an answer
pub const CODE_AT: usize = 5;

pub const COUNT_AT: usize = 6;

pub const MARK_AT: usize = 7;

pub(crate) const LEFT_AT: usize = NUMBERS_AT + 3 * NUMBER_SIZE;

pub(crate) const RIGHT_AT: usize = LEFT_AT + 9 * NUMBER_SIZE;

pub const ANSWER_SIZE: usize = RIGHT_AT + 9 * NUMBER_SIZE;
