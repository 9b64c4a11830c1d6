// The record step: a request's bytes to the bytes of its answer.
ghost use Rattle.std.specs.Prelude.{◌≡◌, length};
ghost use Rattle.float.specs.Width.{F};
ghost use Rattle.matrix.specs.Codes.{code_of};
ghost use Rattle.kinds.specs.Read.{with_code, worked};
ghost use Rattle.record.specs.Layout.{event_bytes, answer_size};
ghost use Rattle.record.specs.Answer.{record_of, record_step_of, Stepped};

use crate::layout::{ANSWER_SIZE, EVENT_SIZE, KIND_AT, LEFT_AT, NUMBERS_AT, RIGHT_AT};
use crate::request::judged;
use kinds::coded::refused;
use kinds::work::{Refused, Worked};
use matrix::codes::{DONE, Refusal};
use wire::bytes::put_numbers;

// The code and the numbers; with a refusal a pivot's number is the only one that is not zero.
fn with_code(w: Result<Worked, Refused>) -> (u8, Worked)
    ensures { with_code result.0 result.1 ≡ worked F w }
{
    match w {
        Ok(w) => (DONE, w),
        Err(e) => refused(e.why.into(), e.pivot),
    }
}

// Inlined, so that the numbers go from where they are worked out to their bytes, and not through memory first.
#[inline(always)]
fn put_record(out: &mut [u8], event: &[u8], kind: u8, w: Result<Worked, Refused>)
    requires sizes { (length event.now ≡ event_bytes) × (length out.old ≡ answer_size F) }
    ensures { out.new ≡ record_of F event.now kind (worked F w) }
{
    let (code, w) = with_code(w);
    out[..EVENT_SIZE].copy_from_slice(event);
    out[EVENT_SIZE..NUMBERS_AT].copy_from_slice(&[kind, code, w.count, u8::from(w.settled)]);
    put_numbers(out, NUMBERS_AT, &w.values);
    put_numbers(out, LEFT_AT, &w.left);
    put_numbers(out, RIGHT_AT, &w.right);
}

// The answer to any request in the answer slice, and why it is refused, if it is. An answer slice of the wrong size stays as it is.
pub fn zanikory_answer_record(request: &[u8], answer: &mut [u8]) -> Result<(), Refusal>
    ensures { Stepped (record_step_of F request.now answer.old) (code_of result) answer.new }
{
    if answer.len() != ANSWER_SIZE {
        return Err(Refusal::OutputLength);
    }
    let Ok(s) = request.try_into() else {
        put_record(
            answer,
            &[0; EVENT_SIZE],
            0,
            Err(Refusal::InputLength.into()),
        );
        return Err(Refusal::InputLength);
    };
    let w = judged(s);
    put_record(answer, &s[..EVENT_SIZE], s[KIND_AT], w);
    match w {
        Ok(_) => Ok(()),
        Err(e) => Err(e.why),
    }
}
