// Requests on standard input, to its end, to answers on standard output, one for each in order. A last part of a
// request gets the answer of code 1.
//
// It answers after each read, so that a slow pipe is served; what a read leaves of a request waits for the next one. A read or a
// write that fails is one line on standard error, and the end; one that a signal broke off is made again.
#![tactic(auto)]

mod calls;
mod decide;

ghost use Rattle.std.specs.Prelude.{ℕ, ◌+◌, ◌-◌, ◌≤◌, ◌<◌, ◌≡◌, take};
ghost use Rattle.float.specs.Width.{F};
ghost use Rattle.stdio.specs.Calls.{AtMost};
ghost use Rattle.record.specs.Layout.{request_size, answer_size};
ghost use Rattle.record.specs.Answer.{wrong_size_of};
ghost use Rattle.answers.specs.Buffers.{room};
ghost use Rattle.answers.specs.States.{standing, going, stopping, followed, Ready};
ghost use Rattle.answers.specs.Rounds.{Answered, Served, LastServed, Followed, Finished};

use crate::calls::{put, read};
use crate::decide::{Failure, Progress};
use record::answer::zanikory_answer_record;
use record::layout::{ANSWER_SIZE, REQUEST_SIZE};
use record::stream::answer_all;
use std::io::{Stdin, Stdout};
use std::ops::ControlFlow;
use stdio::{MOST_CALLS, Outcome, keep_rest};

// The bytes of a large buffer.
pub(crate) const LARGE: usize = 65536;

// The bytes of as many requests as a large buffer holds answers to.
pub(crate) const ROOM: usize = LARGE / ANSWER_SIZE * REQUEST_SIZE;

// Answers the whole requests among the first `total` bytes, and says how many.
fn answer_whole(requests: &[u8; LARGE], answers: &mut [u8; LARGE], total: usize) -> usize
    requires { total ≤ room F }
    ensures { Answered F (take total requests.now) answers.new result }
{
    answer_all(&requests[..total], answers)
}

// Answers a last part of a request, of `have` bytes of the buffer. Why that is no request stands in the answer.
fn answer_part(requests: &[u8; LARGE], answers: &mut [u8; LARGE], have: usize)
    requires { have < request_size F }
    ensures { take (answer_size F) answers.new ≡ wrong_size_of F }
{
    let _ = zanikory_answer_record(&requests[..have], &mut answers[..ANSWER_SIZE]);
}

// The requests at hand, their answers, and how far the program has come.
#[derive(Drop)]
struct Desk {
    requests: [u8; LARGE],
    answers: [u8; LARGE],
    progress: Progress,
}

impl Desk {
    // Answers and writes the whole requests among the first `total` bytes, and keeps the rest.
    fn serve(&mut self, output: Stdout, total: usize) -> Result<(), Failure>
        requires { Ready F (standing 1 self.old.progress) × (total ≤ room F) }
        ensures { (rounds : ℕ) → Served F (take total self.old.requests) self.new.requests self.new.answers
            (standing rounds self.old.progress) (going rounds self.new.progress result) }
    {
        let n = answer_whole(&self.requests, &mut self.answers, total);
        let w = put(output, &self.answers[..ANSWER_SIZE * n]);
        let from = REQUEST_SIZE * n;
        let kept = total - from;
        keep_rest(&mut self.requests, from, kept);
        self.progress.after_answers(w.written, n, kept)
    }

    // The end of the input. A part that is kept is the last one.
    fn serve_last(&mut self, output: Stdout) -> Result<(), Failure>
        requires { Ready F (standing 1 self.old.progress) }
        ensures { LastServed F self.new.answers (standing 1 self.old.progress) (stopping self.new.progress result) }
    {
        let have = self.progress.kept;
        if have == 0 {
            return Ok(());
        }
        answer_part(&self.requests, &mut self.answers, have);
        let w = put(output, &self.answers[..ANSWER_SIZE]);
        self.progress.after_part(w.written)
    }

    // What follows a read that ended so: another, or the end.
    fn follow(&mut self, output: Stdout, o: Outcome) -> Result<ControlFlow<()>, Failure>
        requires { Ready F (standing 1 self.old.progress) × AtMost (room F - self.old.progress.kept) o }
        ensures { (rounds : ℕ) → Followed F o self.old.requests self.new.requests self.new.answers
            (standing rounds self.old.progress) (followed rounds self.new.progress result) }
    {
        match o {
            Outcome::Bytes(n) => self.serve(output, self.progress.kept + n)?,
            Outcome::Interrupted => {},
            Outcome::Nothing => {
                self.serve_last(output)?;
                return Ok(ControlFlow::Break(()));
            },
            Outcome::Failed => return Err(Failure::CannotRead),
        }
        Ok(ControlFlow::Continue(()))
    }

    // Reads and serves, until no round follows.
    fn serve_input(&mut self, input: Stdin, output: Stdout) -> Result<(), Failure>
        requires { self.old.progress ≡ record { kept = 0; written = 0 } }
        ensures { Finished F self.new.requests (stopping self.new.progress result) }
    {
        for _round in 0..MOST_CALLS {
            let o = read(input, &mut self.requests, self.progress.kept);
            match self.follow(output, o)? {
                ControlFlow::Continue(()) => {},
                ControlFlow::Break(()) => return Ok(()),
            }
        }
        Err(Failure::TooManyReads)
    }
}

fn main(rt: HostRuntime) {
    let mut desk = Desk {
        requests: io::large_buffer(),
        answers: io::large_buffer(),
        progress: Progress {
            kept: 0,
            written: 0,
        },
    };
    if let Err(failure) = desk.serve_input(rt.stdin(), rt.stdout()) {
        let written = desk.progress.written;
        // Where that cannot be said either, nothing is left to do.
        let _ = eprintln!(rt; "answers: {failure}: {written} answers written");
    }
}
