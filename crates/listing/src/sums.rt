// Sums of counts, which can pass 64 bits.
ghost use Rattle.std.specs.Prelude.{◌≡◌, ◌+◌, ◌<◌, length, take};
ghost use Rattle.counts.specs.Known.{codes};
ghost use Rattle.counts.specs.Cells.{columns};
ghost use Rattle.counts.specs.Tally.{total};
ghost use Rattle.listing.specs.Page.{total_of};
ghost use Rattle.listing.specs.Sums.{sum_in, totals_in};

use counts::cells::{COLUMNS, ROWS, TALLY_SIZE};
use counts::known::CODES;

// The sum of a column over all rows, if it fits. A column is no slice of the counts, so the row's number makes each place.
fn total(counts: &[u64; TALLY_SIZE], column: usize) -> Option<u64>
    requires { column < columns }
    ensures { result ≡ sum_in (total_of counts.now column) }
{
    let mut sum = 0u64;
    for row in 0..ROWS {
        sum = sum.checked_add(counts[COLUMNS * row + column])?;
    }
    Some(sum)
}

// All totals, if each of them fits.
pub(crate) fn totals(counts: &[u64; TALLY_SIZE]) -> Option<[u64; COLUMNS]>
    ensures { result ≡ totals_in counts.now }
{
    let mut totals = [0; COLUMNS];
    for (column, sum) in totals.iter_mut().enumerate() {
        *sum = total(counts, column)?;
    }
    Some(totals)
}

// All records: the totals of the codes, and the foreign ones.
pub(crate) fn records(totals: &[u64; COLUMNS], foreign: u64) -> Option<u64>
    ensures { result ≡ sum_in (total (take (length codes) totals.now) + foreign) }
{
    let mut sum = 0u64;
    for n in &totals[..CODES] {
        sum = sum.checked_add(*n)?;
    }
    sum.checked_add(foreign)
}
