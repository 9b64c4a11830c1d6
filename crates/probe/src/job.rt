// What a header asks for.
ghost use Rattle.probe.specs.Limits.{SmallItem};

use crate::item::Item;
use crate::operations::answer;

// The bytes of a header.
pub(crate) const HEADER_SIZE: usize = 8;

// The most words of an item, and of an answer.
const MOST_IN: usize = 40;

const MOST_OUT: usize = 64;

// The operation, the words of an item and of its answer, and how many items there are.
#[derive(Clone, Copy)]
pub(crate) struct Job {
    pub(crate) op: u8,
    pub(crate) n: usize,
    pub(crate) m: usize,
    pub(crate) items: usize,
    ghost small: { SmallItem n m },
}

impl Job {
    // A header without a count has all the items to the input's end: a number of them that no run uses up.
    pub(crate) fn new(header: [u8; HEADER_SIZE]) -> Option<Self> {
        let [op, n, m, zero, a, b, c, d] = header;
        let n = usize::from(n);
        let m = usize::from(m);
        answer(op, &mut Item::new(&[]))?;
        if zero != 0 || n < 1 || MOST_IN < n || m < 1 || MOST_OUT < m {
            return None;
        }
        let items = match u32::from_le_bytes([a, b, c, d]) {
            0 => usize::MAX,
            count => count as usize,
        };
        Some(Job { op, n, m, items })
    }
}
