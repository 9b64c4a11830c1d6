// The head of an answer, and which heads are known. A record with any other head is foreign.
ghost use Rattle.std.specs.Prelude.{◌≡◌};
ghost use Rattle.counts.specs.Known.{head_of, codes, marks, known_answer, foreign_of};
ghost use Rattle.counts.specs.Adding.{found_in};

use crate::cells::row_of;
use matrix::codes::DONE;
use record::layout::{ANSWER_SIZE, CODE_AT, COUNT_AT, KIND_AT, MARK_AT};

// The bytes of an answer's head that are counted. `turns` are the rotations, where the code is 0. They are bytes as they came: any may stand in a file, and a
// record whose bytes are not known is counted too.
#[derive(Clone, Copy)]
pub struct Head {
    pub kind: u8,
    pub code: u8,
    pub turns: u8,
    pub mark: u8,
}

impl From<&[u8; ANSWER_SIZE]> for Head {
    ghost from_gives = { λ answer h. h ≡ head_of answer.now };

    fn from(answer: &[u8; ANSWER_SIZE]) -> Head {
        Head {
            kind: answer[KIND_AT],
            code: answer[CODE_AT],
            turns: answer[COUNT_AT],
            mark: answer[MARK_AT],
        }
    }
}

// How many codes and marks are known, and the most rotations that a run makes.
pub const CODES: usize = 8;

pub const MARKS: usize = 2;

pub const MOST_TURNS: u8 = 25;

// The place of a code among those that are known. A match is a table: a search would jump at each code, and a processor guesses these wrong.
pub(crate) fn code_place(code: u8) -> Option<usize>
    ensures { result ≡ found_in code codes }
{
    match code {
        0 => Some(0),
        1 => Some(1),
        3 => Some(2),
        4 => Some(3),
        5 => Some(4),
        6 => Some(5),
        7 => Some(6),
        9 => Some(7),
        _ => None,
    }
}

// The place of a mark, settled before unsettled.
pub(crate) fn mark_place(mark: u8) -> Option<usize>
    ensures { result ≡ found_in mark marks }
{
    match mark {
        1 => Some(0),
        0 => Some(1),
        _ => None,
    }
}

// Whether kind, mark and rotations of an answer with code 0 are known.
fn known_answer(h: Head) -> bool
    ensures { result ≡ known_answer h }
{
    let k = row_of(h.kind);
    if k.number == 0 || mark_place(h.mark).is_none() {
        return false;
    }
    if k.counts {
        return h.turns <= MOST_TURNS;
    }
    h.turns == 0
}

pub fn is_foreign(h: Head) -> bool
    ensures { result ≡ foreign_of h }
{
    if h.code == DONE {
        return !known_answer(h);
    }
    code_place(h.code).is_none()
}
