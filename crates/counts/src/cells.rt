// Where each count of a tally stands: ten counts for each row, which are its codes and its marks; then the rows that count rotations, once for
// each number of them; then the foreign records, and the bytes left over.
ghost use Rattle.std.specs.Prelude.{◌≡◌, true};
ghost use Rattle.kinds.specs.Table.{kind_numbered};
ghost use Rattle.counts.specs.Known.{among, codes, marks};
ghost use Rattle.counts.specs.Cells.{coded, marked, turned, turning, place_of};
ghost use Rattle.counts.specs.Adding.{found_in};

use crate::known::{CODES, MARKS, MOST_TURNS, code_place, mark_place};

pub const KINDS: u8 = 8;

// The rows of the kinds, with one before them that all others share.
pub const ROWS: usize = KINDS as usize + 1;

pub const COLUMNS: usize = CODES + MARKS;

// The rows that count rotations.
pub const TURNING: usize = 2;

pub const TURNS_AT: usize = COLUMNS * ROWS;

pub const FOREIGN_AT: usize = TURNS_AT + TURNING * (MOST_TURNS as usize + 1);

pub const LEFT_AT: usize = FOREIGN_AT + 1;

// So many counts a tally has.
pub const TALLY_SIZE: usize = LEFT_AT + 1;

// The row of a kind, and whether it counts rotations. A number and no `Kind`: the first row is that of each byte which no kind has.
#[derive(Clone, Copy)]
pub struct Row {
    pub number: u8,
    pub counts: bool,
}

// By comparisons that need no jump: a night's kinds follow no pattern, and a processor guesses wrong at each jump on one.
pub(crate) fn row_of(kind: u8) -> Row
    ensures { (result.number ≡ (kind_numbered kind).number) × (result.counts ≡ (kind_numbered kind).counts) }
{
    if kind > KINDS {
        return Row {
            number: 0,
            counts: false,
        };
    }
    Row {
        number: kind,
        counts: turning_place(kind).is_some(),
    }
}

fn turning_place(row: u8) -> Option<usize>
    ensures { result ≡ found_in row turning }
{
    match row {
        2 => Some(0),
        4 => Some(1),
        _ => None,
    }
}

pub(crate) fn coded_at(row: u8, code: u8) -> usize
    requires { among code codes ≡ true }
    ensures { result ≡ place_of (coded row code) }
{
    COLUMNS * row as usize + code_place(code).unwrap()
}

pub(crate) fn marked_at(row: u8, mark: u8) -> usize
    requires { among mark marks ≡ true }
    ensures { result ≡ place_of (marked row mark) }
{
    COLUMNS * row as usize + (CODES + mark_place(mark).unwrap())
}

pub(crate) fn turned_at(row: u8, turns: u8) -> usize
    requires { among row turning ≡ true }
    ensures { result ≡ place_of (turned row turns) }
{
    TURNS_AT + (TURNING * turns as usize + turning_place(row).unwrap())
}
