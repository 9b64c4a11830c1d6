// Many records one after the other.
ghost use Rattle.std.specs.Prelude.{◌≡◌, ◌++◌, ◌+◌, ◌*◌, ◌≤◌, length, take, drop};
ghost use Rattle.float.specs.Width.{F};
ghost use Rattle.record.specs.Layout.{request_size, answer_size};
ghost use Rattle.record.specs.Answer.{answered_of};
ghost use Rattle.record.specs.Stream.{request_of, stream_of, Streamed};

use crate::answer::zanikory_answer_record;
use crate::layout::{ANSWER_SIZE, REQUEST_SIZE};

// Answers the request with number i.
fn answer_one(requests: &[u8], answers: &mut [u8], i: usize)
    requires { (request_size F * i + request_size F ≤ length requests.now) × (answer_size F * i + answer_size F ≤ length answers.old) }
    ensures answers_after { take (answer_size F * i + answer_size F) answers.new
        ≡ take (answer_size F * i) answers.old ++ answered_of F (request_of F i requests.now) }
    ensures answers_unchanged { drop (answer_size F * i + answer_size F) answers.new ≡ drop (answer_size F * i + answer_size F) answers.old }
{
    let a = REQUEST_SIZE * i;
    let b = ANSWER_SIZE * i;
    let request = &requests[a..a + REQUEST_SIZE];
    // a refusal stands in the answer
    let _ = zanikory_answer_record(request, &mut answers[b..b + ANSWER_SIZE]);
}

// Answers as many whole requests as both slices hold, in order, and says how many.
pub fn answer_all(requests: &[u8], answers: &mut [u8]) -> usize
    ensures { Streamed (stream_of F requests.now answers.old) result answers.new }
{
    let n = (requests.len() / REQUEST_SIZE).min(answers.len() / ANSWER_SIZE);
    // place by place: of a slice that is written through its chunks_exact_mut a proof knows no byte
    for i in 0..n {
        answer_one(requests, answers, i);
    }
    n
}
