// The listing of a tally.
ghost use Rattle.std.specs.Prelude.{◌≡◌, ◌++◌};
ghost use Rattle.listing.specs.Putting.{Room};
ghost use Rattle.listing.specs.Page.{totals_of, records_in, rows_text, sums_text, turns_text, listing_of, written_of, listed_of, Wrote};

use crate::sums::{records, totals};
use crate::text::{Page, put_block, put_line};
use counts::cells::{COLUMNS, FOREIGN_AT, LEFT_AT, TALLY_SIZE, TURNING, TURNS_AT};
use matrix::codes::Refusal;

// No listing is longer.
pub const LISTING_MOST: usize = 4096;

// The lines of the rows, and the totals.
fn put_rows(page: &mut Page, counts: &[u64; TALLY_SIZE], totals: &[u64; COLUMNS])
    requires { (Room page.old.bytes (rows_text counts.now)) × (totals.now ≡ totals_of counts.now) }
    ensures { page.new.bytes ≡ page.old.bytes ++ rows_text counts.now }
{
    page.push_str(
        "kind\tcode 0\tcode 1\tcode 3\tcode 4\tcode 5\tcode 6\tcode 7\tcode 9\tsettled\tunsettled\n",
    );
    let (kinds, _) = counts[COLUMNS..TURNS_AT].as_chunks::<COLUMNS>();
    put_block(page, 1, kinds);
    put_line(page, "other", &counts[..COLUMNS]);
    put_line(page, "total", totals);
}

fn put_sums(page: &mut Page, counts: &[u64; TALLY_SIZE], records: u64)
    requires { (Room page.old.bytes (sums_text counts.now)) × (records ≡ records_in counts.now) }
    ensures { page.new.bytes ≡ page.old.bytes ++ sums_text counts.now }
{
    put_line(page, "records", &[records]);
    put_line(page, "foreign", &[counts[FOREIGN_AT]]);
    put_line(page, "left over", &[counts[LEFT_AT]]);
}

// A line for each number of rotations.
fn put_turns(page: &mut Page, counts: &[u64; TALLY_SIZE])
    requires { Room page.old.bytes (turns_text counts.now) }
    ensures { page.new.bytes ≡ page.old.bytes ++ turns_text counts.now }
{
    page.push_str("turns\tkind 2\tkind 4\n");
    let (turns, _) = counts[TURNS_AT..FOREIGN_AT].as_chunks::<TURNING>();
    put_block(page, 0, turns);
}

fn page_of(counts: &[u64; TALLY_SIZE], totals: &[u64; COLUMNS], records: u64) -> Page
    requires { (totals.now ≡ totals_of counts.now) × (records ≡ records_in counts.now) }
    ensures { result.bytes ≡ listing_of counts.now }
{
    let mut page = Page::new();
    put_rows(&mut page, counts, totals);
    put_sums(&mut page, counts, records);
    put_turns(&mut page, counts);
    page
}

// The listing of the counts of a tally, from the start of the output on, and how long it is.
#[tactic(auto, unfolding(crate::specs::Page::written_of))]
pub fn listing(counts: &[u64], out: &mut [u8]) -> Result<usize, Refusal>
    ensures { Wrote (written_of counts.now out.old) (listed_of result) out.new }
{
    if out.len() < LISTING_MOST {
        return Err(Refusal::OutputLength);
    }
    let counts = counts.as_array().ok_or(Refusal::InputLength)?;
    let totals = totals(counts).ok_or(Refusal::CountTooLarge)?;
    let records = records(&totals, counts[FOREIGN_AT]).ok_or(Refusal::CountTooLarge)?;
    let page = page_of(counts, &totals, records);
    out[..page.len()].copy_from_slice(page.as_bytes());
    Ok(page.len())
}
