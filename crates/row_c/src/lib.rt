// The row call on bytes for C: a library's function, under its own name and with its own promise, and no more.
// C has no Result: it hands out the code as a number.
#![tactic(auto)]

ghost use Rattle.float.specs.Width.{F};
ghost use Rattle.matrix.specs.Answer.{Outcome};
ghost use Rattle.row.specs.Bytes.{svd_row_bytes_of};

use matrix::codes::code_of;

// The row call of `rows` on bytes: nine numbers for a matrix, and SVD_SIZE bytes for an answer.
#[unsafe(no_mangle)]
pub extern "C" fn zanikory_svd_3x3_row(mats: &[u8], answers: &mut [u8]) -> u8
    ensures { Outcome (svd_row_bytes_of F mats.now answers.old) result answers.new }
{
    code_of(row::bytes::zanikory_svd_3x3_row(mats, answers))
}
