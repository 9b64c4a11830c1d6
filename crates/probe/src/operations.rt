// The operations by number. Each subject has sixteen numbers; a new operation is an arm in its subject's file. A number is all that the header of a job has:
// an enum of the operations would be a second list of the same, and a table of closures a third. Each takes the item that it reads and the answer that it
// fills: they stand for input and output, and no operation has both in one.
use crate::answer::Answer;
use crate::item::Item;
use crate::of_cholesky::cholesky;
use crate::of_eigen::eigen;
use crate::of_float::float;
use crate::of_matrix::matrix;
use crate::of_svd::svd;

// The answer's words; those that the operation does not make are 0. There is none where no operation has the number.
pub(crate) fn answer(op: u8, item: &mut Item) -> Option<Answer> {
    let mut out = Answer::new();
    match op / 16 {
        0 => float(op, item, &mut out)?,
        1 => matrix(op, item, &mut out)?,
        2 => cholesky(op, item, &mut out)?,
        3 => eigen(op, item, &mut out)?,
        4 => svd(op, item, &mut out)?,
        _ => return None,
    }
    Some(out)
}
