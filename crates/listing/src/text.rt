// Lines of a listing. Each function puts its text behind what is there.
ghost use Rattle.std.specs.Prelude.{◌≡◌, List, ℕ, ◌+◌, ◌<◌, ◌++◌, length};
ghost use Rattle.listing.specs.Text.{counts_line};
ghost use Rattle.listing.specs.Putting.{Room, counts_end, block_of};

use crate::page::LISTING_MOST;
use arrayvec::ArrayString;
use itoa::Buffer;

// The text of a listing so far.
pub(crate) type Page = ArrayString<LISTING_MOST>;

// Each count behind a tab, and the end of the line.
fn put_counts(page: &mut Page, counts: &[u64])
    requires { Room page.old.bytes (counts_end counts.now) }
    ensures { page.new.bytes ≡ page.old.bytes ++ counts_end counts.now }
{
    for n in counts {
        page.push('\t');
        page.push_str(Buffer::new().format(*n));
    }
    page.push('\n');
}

// A line of counts under a name.
pub(crate) fn put_line(page: &mut Page, name: &str, counts: &[u64])
    requires { Room page.old.bytes (counts_line name.now counts.now) }
    ensures { page.new.bytes ≡ page.old.bytes ++ counts_line name.now counts.now }
{
    page.push_str(name);
    put_counts(page, counts);
}

// Lines under numbers that follow each other.
pub(crate) fn put_block<const WIDTH: usize>(page: &mut Page, first: usize, lines: &[[u64; WIDTH]])
    requires { (Room page.old.bytes (block_of first lines.now)) × (first + length lines.now < 256) }
    ensures { page.new.bytes ≡ page.old.bytes ++ block_of first lines.now }
{
    for (i, line) in lines.iter().enumerate() {
        put_line(page, Buffer::new().format(first + i), line);
    }
}
