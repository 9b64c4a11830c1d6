// The calls on a tally. The counts are lent and changed in place: a night has millions of records, and a table that went by value would be
// copied for each of them.
ghost use Rattle.std.specs.Prelude.{◌≡◌, true, ◌<◌, is_ok};
ghost use Rattle.float.specs.Width.{F};
ghost use Rattle.matrix.specs.Codes.{code_of};
ghost use Rattle.counts.specs.Known.{known_answer};
ghost use Rattle.counts.specs.Cells.{tally_size};
ghost use Rattle.counts.specs.Tally.{tally_of, cleared_of, with_record, with_file, tallied_of, with_tally, Left};
ghost use Rattle.counts.specs.Adding.{Summed, only, head_tally, mark_parts, ended_of};

use crate::cells::{FOREIGN_AT, LEFT_AT, TALLY_SIZE, coded_at, marked_at, row_of, turned_at};
use crate::known::{Head, is_foreign};
use matrix::codes::{DONE, Refusal};
use record::layout::ANSWER_SIZE;

// The counts of a tally.
type Counts = [u64; TALLY_SIZE];

// A count passes 64 bits.
#[derive(Clone, Copy)]
struct TooLarge;

// Adds n to the count at a place, if the sum fits.
fn add_at(counts: &mut Counts, at: usize, n: u64) -> Result<(), TooLarge>
    requires { at < tally_size }
    ensures { Summed counts.old (only tally_size at n) (is_ok result) counts.new }
{
    let sum = counts[at].checked_add(n).ok_or(TooLarge)?;
    counts[at] = sum;
    Ok(())
}

// The mark of a record with code 0 whose head is known, and its rotations where its kind counts them.
fn count_mark(counts: &mut Counts, h: Head) -> Result<(), TooLarge>
    requires { known_answer h ≡ true }
    ensures { Summed counts.old (mark_parts h) (is_ok result) counts.new }
{
    let k = row_of(h.kind);
    add_at(counts, marked_at(k.number, h.mark), 1)?;
    if k.counts {
        return add_at(counts, turned_at(k.number, h.turns), 1);
    }
    Ok(())
}

// One record more, with this head.
fn count_head(counts: &mut Counts, h: Head) -> Result<(), TooLarge>
    ensures { Summed counts.old (head_tally h) (is_ok result) counts.new }
{
    if is_foreign(h) {
        return add_at(counts, FOREIGN_AT, 1);
    }
    let k = row_of(h.kind);
    add_at(counts, coded_at(k.number, h.code), 1)?;
    if h.code == DONE {
        return count_mark(counts, h);
    }
    Ok(())
}

// The records of a slice of bytes more, and its bytes left over.
fn count_file(counts: &mut Counts, answers: &[u8]) -> Result<(), TooLarge>
    ensures { Summed counts.old (tally_of F answers.now) (is_ok result) counts.new }
{
    let (records, left) = answers.as_chunks::<ANSWER_SIZE>();
    for r in records {
        count_head(counts, Head::from(r))?;
    }
    add_at(counts, LEFT_AT, left.len() as u64)
}

// Count by count.
fn count_tally(counts: &mut Counts, more: &Counts) -> Result<(), TooLarge>
    ensures { Summed counts.old more.now (is_ok result) counts.new }
{
    for (at, n) in more.iter().enumerate() {
        add_at(counts, at, *n)?;
    }
    Ok(())
}

// The end of an adding. One that does not fit leaves zeros.
#[tactic(auto, unfolding(crate::specs::Adding::ended_of))]
fn ended(counts: &mut Counts, sum: Result<(), TooLarge>) -> Result<(), Refusal>
    ensures { Left (ended_of (is_ok sum) counts.old) (code_of result) counts.new }
{
    if sum.is_err() {
        counts.fill(0);
        return Err(Refusal::CountTooLarge);
    }
    Ok(())
}

// The empty tally.
#[tactic(auto, unfolding(crate::specs::Tally::cleared_of))]
pub fn zanikory_tally_clear(counts: &mut [u64]) -> Result<(), Refusal>
    ensures { Left (cleared_of counts.old) (code_of result) counts.new }
{
    if counts.len() != TALLY_SIZE {
        return Err(Refusal::OutputLength);
    }
    counts.fill(0);
    Ok(())
}

// A tally with one answer more.
#[tactic(auto, unfolding(crate::specs::Tally::with_record))]
pub fn zanikory_tally_record(counts: &mut [u64], answer: &[u8]) -> Result<(), Refusal>
    ensures { Left (with_record F counts.old answer.now) (code_of result) counts.new }
{
    let Some(counts) = counts.as_mut_array() else {
        return Err(Refusal::OutputLength);
    };
    let answer = answer.as_array().ok_or(Refusal::InputLength)?;
    let sum = count_head(counts, Head::from(answer));
    ended(counts, sum)
}

// A tally with the answers of a file more, and with its bytes left over.
#[tactic(auto, unfolding(crate::specs::Tally::with_file))]
pub fn zanikory_tally_file(counts: &mut [u64], answers: &[u8]) -> Result<(), Refusal>
    ensures { Left (with_file F counts.old answers.now) (code_of result) counts.new }
{
    let Some(counts) = counts.as_mut_array() else {
        return Err(Refusal::OutputLength);
    };
    let sum = count_file(counts, answers);
    ended(counts, sum)
}

// The tally of a file.
#[tactic(auto, unfolding(crate::specs::Tally::tallied_of))]
pub fn zanikory_tally_of(counts: &mut [u64], answers: &[u8]) -> Result<(), Refusal>
    ensures { Left (tallied_of F counts.old answers.now) (code_of result) counts.new }
{
    let Some(counts) = counts.as_mut_array() else {
        return Err(Refusal::OutputLength);
    };
    counts.fill(0);
    let sum = count_file(counts, answers);
    ended(counts, sum)
}

// A tally with another one more.
#[tactic(auto, unfolding(crate::specs::Tally::with_tally))]
pub fn zanikory_tally_add(counts: &mut [u64], more: &[u64]) -> Result<(), Refusal>
    ensures { Left (with_tally counts.old more.now) (code_of result) counts.new }
{
    let Some(counts) = counts.as_mut_array() else {
        return Err(Refusal::OutputLength);
    };
    let more = more.as_array().ok_or(Refusal::InputLength)?;
    let sum = count_tally(counts, more);
    ended(counts, sum)
}
