// The calls on a tally for C: a library's functions, under their own names and with their own promises, and no more.
// C has no Result: each entry hands out the code as a number.
#![tactic(auto)]

ghost use Rattle.float.specs.Width.{F};
ghost use Rattle.counts.specs.Tally.{cleared_of, with_record, with_file, tallied_of, with_tally, Left};

use counts::tally;
use matrix::codes::code_of;

// The empty tally.
#[unsafe(no_mangle)]
pub extern "C" fn zanikory_tally_clear(counts: &mut [u64]) -> u8
    ensures { Left (cleared_of counts.old) result counts.new }
{
    code_of(tally::zanikory_tally_clear(counts))
}

// A tally with one answer more.
#[unsafe(no_mangle)]
pub extern "C" fn zanikory_tally_record(counts: &mut [u64], answer: &[u8]) -> u8
    ensures { Left (with_record F counts.old answer.now) result counts.new }
{
    code_of(tally::zanikory_tally_record(counts, answer))
}

// A tally with the answers of a file more, and with its bytes left over.
#[unsafe(no_mangle)]
pub extern "C" fn zanikory_tally_file(counts: &mut [u64], answers: &[u8]) -> u8
    ensures { Left (with_file F counts.old answers.now) result counts.new }
{
    code_of(tally::zanikory_tally_file(counts, answers))
}

// The tally of a file.
#[unsafe(no_mangle)]
pub extern "C" fn zanikory_tally_of(counts: &mut [u64], answers: &[u8]) -> u8
    ensures { Left (tallied_of F counts.old answers.now) result counts.new }
{
    code_of(tally::zanikory_tally_of(counts, answers))
}

// A tally with another one more.
#[unsafe(no_mangle)]
pub extern "C" fn zanikory_tally_add(counts: &mut [u64], more: &[u64]) -> u8
    ensures { Left (with_tally counts.old more.now) result counts.new }
{
    code_of(tally::zanikory_tally_add(counts, more))
}
