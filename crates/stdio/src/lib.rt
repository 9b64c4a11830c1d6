// What a program makes of what its reads and writes answer: how a call ended, how far a writing has come, which bytes are kept for the
// next read. The calls themselves stand in the programs, since what they move no contract can say; what follows from it is said here.
#![tactic(auto)]

ghost use Rattle.std.specs.Prelude.{◌≡◌};
ghost use Rattle.stdio.specs.Calls.{ended_of, to_write_of, up_to, wrote_of};
ghost use Rattle.stdio.specs.Kept.{kept_of};

use std::io;
use std::io::ErrorKind;

// A proved loop has to end, and nothing says that the input does, or that a call is let through at last. So a loop of calls makes at
// most so many, which no run uses up.
pub const MOST_CALLS: u64 = 9007199254740992;

// How a read or a write ended. Of these four a Result has two: an end of the input and a call that is to be made again are no failures.
#[derive(Clone, Copy)]
pub enum Outcome {
    // So many bytes are read or written.
    Bytes(usize),
    // None are: of a read, the end of the input.
    Nothing,
    // A signal broke the call off, and it is to be made again.
    Interrupted,
    Failed,
}

// How a call ended that was handed `most` bytes, and answers how many of them it moved, and else why it failed.
#[tactic(auto, using(crate::proofs::Outcomes::counted), unfolding(crate::specs::Calls::outcome_of))]
pub fn ended(got: io::Result<usize>, most: usize) -> Outcome
    ensures { result ≡ ended_of got most }
{
    match got {
        Ok(0) => Outcome::Nothing,
        Ok(n) => Outcome::Bytes(n.min(most)),
        Err(e) if e.kind() == ErrorKind::Interrupted => Outcome::Interrupted,
        Err(_) => Outcome::Failed,
    }
}

// Bytes on their way out: so many are written, and so many calls may follow, which is none once the writing has ended. The calls are
// counted here and not in the range of a `for`, since the bound is promised (`to_write_of`, `calls_fall`).
#[derive(Clone, Copy)]
pub struct Writing {
    pub written: usize,
    pub calls: u64,
}

// So many bytes of `end` are written, and no call follows where that is all of them.
fn up_to(written: usize, end: usize, calls: u64) -> Writing
    ensures { result ≡ up_to written end calls }
{
    let calls = if written < end { calls } else { 0 };
    Writing { written, calls }
}

// Before the first call for `end` bytes.
pub fn to_write(end: usize) -> Writing
    ensures { result ≡ to_write_of end }
{
    up_to(0, end, MOST_CALLS)
}

// After one more call, for the bytes from `w.written` on. A write that takes nothing has failed, and the writing ends.
pub fn wrote(w: Writing, end: usize, o: Outcome) -> Writing
    ensures { result ≡ wrote_of w end o }
{
    let calls = w.calls.saturating_sub(1);
    match o {
        Outcome::Bytes(n) => up_to(w.written.saturating_add(n).min(end), end, calls),
        Outcome::Interrupted => Writing { calls, ..w },
        Outcome::Nothing | Outcome::Failed => Writing { calls: 0, ..w },
    }
}

// Moves the n bytes from `from` on to the front, and leaves what lies behind the n first places. Where there are not so many bytes all
// stays as it is.
pub fn keep_rest(buf: &mut [u8], from: usize, n: usize)
    ensures { buf.new ≡ kept_of from n buf.old }
{
    if from <= buf.len() && n <= buf.len() - from {
        buf.copy_within(from..from + n, 0);
    }
}
