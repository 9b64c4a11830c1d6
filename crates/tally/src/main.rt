// Answers on standard input, to its end, to one listing of them on standard output.
//
// It counts after each read, in fixed memory; what a read leaves of a record waits for the next one, and what is left at the end are bytes
// left over. A read that fails, or a count that passes 64 bits, is one line on standard error and no listing; a read or a write that a
// signal broke off is made again.
#![tactic(auto)]

mod calls;
mod decide;

ghost use Rattle.std.specs.Prelude.{ℕ, ◌-◌, ◌≤◌, ◌<◌, take};
ghost use Rattle.float.specs.Width.{F};
ghost use Rattle.stdio.specs.Calls.{AtMost};
ghost use Rattle.tally.specs.Buffers.{room};
ghost use Rattle.tally.specs.States.{standing, going, stopping, followed, ending, Ready};
ghost use Rattle.tally.specs.Rounds.{Counted, LastCounted, Followed, Finished};
ghost use Rattle.tally.specs.Given.{Shown, Tallied};

use crate::calls::{put, read};
use crate::decide::{Failure, after_listing};
use counts::cells::TALLY_SIZE;
use counts::tally::{zanikory_tally_clear, zanikory_tally_file};
use listing::page::listing;
use record::layout::ANSWER_SIZE;
use std::io::{Stdin, Stdout};
use std::ops::ControlFlow;
use stdio::{MOST_CALLS, Outcome, keep_rest};

// The bytes of a large buffer.
pub(crate) const LARGE: usize = 65536;

// The bytes of as many answers as a large buffer holds.
pub(crate) const ROOM: usize = LARGE / ANSWER_SIZE * ANSWER_SIZE;

// The answers at hand, how many bytes of them are kept for the next round, and the counts of those before. That these are less than a record
// (`Ready`) is no ghost field: a struct that has one cannot lend two of its fields at once.
#[derive(Drop)]
struct Desk {
    answers: [u8; LARGE],
    kept: usize,
    counts: [u64; TALLY_SIZE],
}

impl Desk {
    // Counts the whole records among the first `total` bytes, and keeps the rest.
    fn serve(&mut self, total: usize) -> Result<(), Failure>
        requires { total ≤ room F }
        ensures { (rounds : ℕ) → Counted F (take total self.old.answers) self.new.answers self.old.counts self.new.counts
            (standing rounds self.old.kept) (going rounds self.new.kept result) }
    {
        let from = ANSWER_SIZE * (total / ANSWER_SIZE);
        let counted = zanikory_tally_file(&mut self.counts, &self.answers[..from]);
        keep_rest(&mut self.answers, from, total - from);
        counted?;
        self.kept = total - from;
        Ok(())
    }

    // The end of the input. A part of a record that is kept is bytes left over.
    fn serve_last(&mut self) -> Result<(), Failure>
        requires { Ready F (standing 1 self.old.kept) }
        ensures { LastCounted F (take self.old.kept self.old.answers) self.old.counts self.new.counts (stopping self.new.kept result) }
    {
        zanikory_tally_file(&mut self.counts, &self.answers[..self.kept])?;
        Ok(())
    }

    // What follows a read that ended so: another, or the end.
    fn follow(&mut self, o: Outcome) -> Result<ControlFlow<()>, Failure>
        requires { Ready F (standing 1 self.old.kept) × AtMost (room F - self.old.kept) o }
        ensures { (rounds : ℕ) → Followed F o self.old.answers self.new.answers self.old.counts self.new.counts
            (standing rounds self.old.kept) (followed rounds self.new.kept result) }
    {
        match o {
            Outcome::Bytes(n) => self.serve(self.kept + n)?,
            Outcome::Interrupted => {},
            Outcome::Nothing => {
                self.serve_last()?;
                return Ok(ControlFlow::Break(()));
            },
            Outcome::Failed => return Err(Failure::CannotRead),
        }
        Ok(ControlFlow::Continue(()))
    }

    // Reads and counts, until no round follows.
    fn serve_input(&mut self, input: Stdin) -> Result<(), Failure>
        ensures { Finished F self.new.counts (stopping self.new.kept result) }
    {
        zanikory_tally_clear(&mut self.counts).unwrap();
        self.kept = 0;
        for _round in 0..MOST_CALLS {
            let o = read(input, &mut self.answers, self.kept);
            match self.follow(o)? {
                ControlFlow::Continue(()) => {},
                ControlFlow::Break(()) => return Ok(()),
            }
        }
        Err(Failure::TooManyReads)
    }
}

// Writes the listing of all that was counted.
fn list(output: Stdout, counts: &[u64; TALLY_SIZE], out: &mut [u8; LARGE]) -> Result<(), Failure>
    ensures { Shown counts.now out.new (ending result) }
{
    let size = listing(counts, out)?;
    let w = put(output, &out[..size]);
    after_listing(w.written, size)
}

// From the first read to the last write: the listing, where the input was counted to its end.
fn tally(
    input: Stdin,
    output: Stdout,
    desk: &mut Desk,
    out: &mut [u8; LARGE],
) -> Result<(), Failure>
    ensures { Tallied F out.new (ending result) }
{
    desk.serve_input(input)?;
    list(output, &desk.counts, out)
}

fn main(rt: HostRuntime) {
    let mut desk = Desk {
        answers: io::large_buffer(),
        kept: 0,
        counts: [0; TALLY_SIZE],
    };
    let mut out = io::large_buffer();
    if let Err(failure) = tally(rt.stdin(), rt.stdout(), &mut desk, &mut out) {
        // Where that cannot be said either, nothing is left to do.
        let _ = eprintln!(rt; "tally: {failure}");
    }
}
