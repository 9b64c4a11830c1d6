// What the program decides between its calls. Each decision is a function of how a call ended, or of how many bytes went out, and its
// promise is an equation: a call's outcome no contract can name, and what follows from it is said here.
ghost use Rattle.std.specs.Prelude.{◌≡◌, ℕ, ◌<◌};
ghost use Rattle.float.specs.Width.{F};
ghost use Rattle.answers.specs.States.{standing, going, stopping, after_answers, after_part, Ready};

use record::layout::ANSWER_SIZE;
use std::fmt;

// What stops the program before the end of its input.
#[derive(Clone, Copy, Debug)]
pub enum Failure {
    CannotRead,
    CannotWrite,
    TooManyReads,
}

impl fmt::Display for Failure {
    fn fmt<W: fmt::Write>(&self, f: &mut fmt::Formatter<W>) -> fmt::Result {
        f.write_str(match self {
            Failure::CannotRead => "cannot read",
            Failure::CannotWrite => "cannot write",
            Failure::TooManyReads => "too many reads",
        })
    }
}

// How far the program has come: so many bytes of a request are kept for the next round, and so many answers are written. What bounds these
// is how many rounds are to come, which the loop alone knows, so `Ready` stands in the contracts.
#[derive(Clone, Copy)]
pub struct Progress {
    pub kept: usize,
    pub written: u64,
}

impl Progress {
    // After the answers to n requests, of which `gone` bytes went out. The program goes on if that is all of them.
    pub(crate) fn after_answers(
        &mut self,
        gone: usize,
        n: usize,
        kept: usize,
    ) -> Result<(), Failure>
        requires { Ready F (standing 1 self.old) × (n < 65536) }
        ensures { (rounds : ℕ) → going rounds self.new result ≡ after_answers F (standing rounds self.old) gone n kept }
    {
        self.written += (gone / ANSWER_SIZE) as u64;
        if gone < ANSWER_SIZE * n {
            return Err(Failure::CannotWrite);
        }
        self.kept = kept;
        Ok(())
    }

    // After the answer to a last part of a request, of which `gone` bytes went out.
    pub(crate) fn after_part(&mut self, gone: usize) -> Result<(), Failure>
        requires { Ready F (standing 1 self.old) }
        ensures { stopping self.new result ≡ after_part F (standing 1 self.old) gone }
    {
        if gone < ANSWER_SIZE {
            return Err(Failure::CannotWrite);
        }
        self.written += 1;
        Ok(())
    }
}
