// Why a call is refused, and the number of that: the code that a caller in C sees, and that an answer's bytes carry.
ghost use Rattle.std.specs.Prelude.{◌≡◌};
ghost use Rattle.matrix.specs.Codes.{number_of, code_of};

// The code of a call that is not refused.
pub const DONE: u8 = 0;

// Each refusal by its number. Those that a function can give are named in its definition.
#[derive(Clone, Copy, Debug, PartialEq, Eq)]
pub enum Refusal {
    // An input slice of wrong length.
    InputLength = 1,
    // An output slice of wrong length.
    OutputLength = 2,
    // A kind that is none.
    UnknownKind = 3,
    // A way that the kind does not have, or a reserved byte or an unused number that is not all zero bits.
    Reserved = 4,
    // A used input number is NaN or infinite.
    InputNotFinite = 5,
    // A pivot is at most zero.
    Pivot = 6,
    // A number of the answer is NaN or infinite.
    AnswerNotFinite = 7,
    // A row or a column not below the size.
    Outside = 8,
    // A pivot is NaN.
    NanPivot = 9,
    // Rows of unequal length.
    RowsUnequal = 10,
    // A row of more than 64 places.
    RowTooLong = 11,
    // A count passes 64 bits.
    CountTooLarge = 14,
}

impl From<Refusal> for u8 {
    ghost from_gives = { λ r n. n ≡ number_of r };

    fn from(r: Refusal) -> u8 {
        r as u8
    }
}

// The code of a call: 0, or the number of its refusal.
pub fn code_of<T: Drop>(r: Result<T, Refusal>) -> u8
    ensures { result ≡ code_of r }
{
    match r {
        Ok(_) => DONE,
        Err(e) => u8::from(e),
    }
}
