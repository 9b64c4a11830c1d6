// A refusal as a record has it: a code, and numbers beside it. Real is f64 (float::width).
ghost use Rattle.std.specs.Prelude.{◌≡◌};
ghost use Rattle.float.specs.Width.{F};
ghost use Rattle.kinds.specs.Work.{refused_kind};
ghost use Rattle.kinds.specs.Read.{with_code};

use crate::work::Worked;

// Only the code, whichever it is, and a pivot's number: all other numbers are zero.
pub fn refused(code: u8, pivot: u8) -> (u8, Worked)
    ensures { with_code result.0 result.1 ≡ refused_kind F code pivot }
{
    let w = Worked {
        count: pivot,
        settled: false,
        values: [0.0; 3],
        left: [0.0; 9],
        right: [0.0; 9],
    };
    (code, w)
}
