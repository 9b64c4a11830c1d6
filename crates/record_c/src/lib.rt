// The record step for C: a library's function, under its own name and with its own promise, and no more.
// C has no Result: it hands out the code as a number.
#![tactic(auto)]

ghost use Rattle.float.specs.Width.{F};
ghost use Rattle.record.specs.Answer.{record_step_of, Stepped};

use matrix::codes::code_of;

// The code, with the answer to any request in the answer slice. An answer slice of the wrong size stays as it is.
#[unsafe(no_mangle)]
pub extern "C" fn zanikory_answer_record(request: &[u8], answer: &mut [u8]) -> u8
    ensures { Stepped (record_step_of F request.now answer.old) result answer.new }
{
    code_of(record::answer::zanikory_answer_record(request, answer))
}
