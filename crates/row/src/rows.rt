// Lent rows of structs: each place of the answers is what the single call gives for the matrix in this place. Real is f64 (float::width).
ghost use Rattle.std.specs.Prelude.{◌≡◌};
ghost use Rattle.float.specs.Width.{F};
ghost use Rattle.matrix.specs.Answer.{Outcome};
ghost use Rattle.matrix.specs.Codes.{code_of, told};
ghost use Rattle.svd.specs.Svd3x3.{refused_svd, whole_svd};
ghost use Rattle.row.specs.Row.{row_code_of, svd_row_of, answer_in, answers_in, whole_filled, fill_of};

use float::width::Real;
use jacobi::made::Made;
use matrix::codes::{DONE, Refusal};
use matrix::square::Mat3;
use svd::svd3x3::{Svd3, svd};

// A place of a lent row: what the single call gives, with its code, and zeros where that is refused. Any code may stand in it before a call.
#[derive(Clone, Copy)]
pub struct SvdPlace {
    pub code: u8,
    pub made: Made,
    pub settled: bool,
    pub values: [Real; 3],
    pub u: Mat3,
    pub v: Mat3,
    pub worked: Mat3,
}

// The place that an answer takes, with its code.
fn place(code: u8, x: Svd3) -> SvdPlace
    ensures { result ≡ record { code = code; made = x.made; settled = x.settled; values = x.values; u = x.u; v = x.v; worked = x.worked } }
{
    let Svd3 {
        made,
        settled,
        values,
        u,
        v,
        worked,
    } = x;
    SvdPlace {
        code,
        made,
        settled,
        values,
        u,
        v,
        worked,
    }
}

impl From<Result<Svd3, Refusal>> for SvdPlace {
    ghost from_gives = { λ r p. answer_in p ≡ told (refused_svd F) whole_svd r };

    fn from(r: Result<Svd3, Refusal>) -> SvdPlace {
        match r {
            Ok(x) => place(DONE, x),
            Err(e) => place(
                u8::from(e),
                Svd3 {
                    made: Made { count: 0 },
                    settled: false,
                    values: [0.0; 3],
                    u: Mat3::zeros(),
                    v: Mat3::zeros(),
                    worked: Mat3::zeros(),
                },
            ),
        }
    }
}

// The most places that a row may have.
const MOST: usize = 64;

// By the lengths alone: of the matrices' row, and of the answers'.
#[tactic(auto, unfolding(crate::specs::Row::row_code_of))]
pub(crate) fn row_gate(mats: usize, answers: usize) -> Result<(), Refusal>
    ensures { code_of result ≡ row_code_of mats answers }
{
    if mats != answers {
        return Err(Refusal::RowsUnequal);
    }
    if mats > MOST {
        return Err(Refusal::RowTooLong);
    }
    Ok(())
}

// Fills the lent row; a refused one stays as it is.
pub fn svd_row(mats: &[Mat3], answers: &mut [SvdPlace]) -> Result<(), Refusal>
    ensures { Outcome (svd_row_of F mats.now (answers_in answers.old)) (code_of result) (answers_in answers.new) }
{
    row_gate(mats.len(), answers.len())?;
    // over the places by their index: of what an iterator over both rows writes nothing is known
    for (i, place) in answers.iter_mut().enumerate() {
        *place = SvdPlace::from(svd(mats[i]));
    }
    Ok(())
}

// One place more than a row may have, so that every refusal can be seen.
pub const ROOM: usize = MOST + 1;

// How the call ended, and the places as it left them.
#[derive(Clone, Copy)]
pub struct Filled {
    pub ended: Result<(), Refusal>,
    pub answers: [SvdPlace; ROOM],
}

// The same on copies, of which the first n matrices and the first m places are lent. Numbers above ROOM count as ROOM.
pub fn svd_row_of(mats: [Mat3; ROOM], n: usize, mut answers: [SvdPlace; ROOM], m: usize) -> Filled
    ensures { whole_filled result ≡ fill_of F mats n (answers_in answers) m }
{
    let ended = svd_row(&mats[..n.min(ROOM)], &mut answers[..m.min(ROOM)]);
    Filled { ended, answers }
}
