// What the program decides between its calls, and how it fails. The decision is a function of how many bytes went out, and its promise is
// an equation: a call's outcome no contract can name, and what follows from it is said here.
ghost use Rattle.std.specs.Prelude.{◌≡◌};
ghost use Rattle.tally.specs.declared.decide.Failure.TheVariants.{CountTooLarge};
ghost use Rattle.tally.specs.States.{after_listing, ending};

use matrix::codes::Refusal;
use std::fmt;

// What stops the program before its listing is written.
#[derive(Clone, Copy, Debug)]
pub enum Failure {
    CannotRead,
    CannotWrite,
    CountTooLarge,
    TooManyReads,
}

impl fmt::Display for Failure {
    fn fmt<W: fmt::Write>(&self, f: &mut fmt::Formatter<W>) -> fmt::Result {
        f.write_str(match self {
            Failure::CannotRead => "cannot read",
            Failure::CannotWrite => "cannot write",
            Failure::CountTooLarge => "a count passes 64 bits (14)",
            Failure::TooManyReads => "too many reads",
        })
    }
}

// With the program's buffers a call is refused for nothing else.
impl From<Refusal> for Failure {
    ghost from_gives = { λ r e. e ≡ CountTooLarge };

    fn from(_r: Refusal) -> Failure {
        Failure::CountTooLarge
    }
}

// After a listing of `size` bytes, of which `gone` went out.
pub(crate) fn after_listing(gone: usize, size: usize) -> Result<(), Failure>
    ensures { ending result ≡ after_listing gone size }
{
    if gone < size {
        return Err(Failure::CannotWrite);
    }
    Ok(())
}
