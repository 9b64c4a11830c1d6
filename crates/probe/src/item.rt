// What is left of an item: its words, in the order in which the operations take them. Real is f64 (float::width).
ghost use Rattle.std.specs.Prelude.{◌≤◌};

use float::bits::of_bits;
use float::width::Real;

// Behind the last word all words are 0.
#[derive(Drop)]
pub(crate) struct Item<'a> {
    bytes: &'a [u8],
}

impl<'a> Item<'a> {
    pub(crate) fn new(bytes: &'a [u8]) -> Self {
        Item { bytes }
    }

    pub(crate) fn word(&mut self) -> u64 {
        let Some((word, rest)) = self.bytes.split_first_chunk::<8>() else {
            return 0;
        };
        self.bytes = rest;
        u64::from_le_bytes(*word)
    }

    pub(crate) fn number(&mut self) -> Real {
        of_bits(self.word())
    }

    pub(crate) fn numbers<const N: usize>(&mut self) -> [Real; N] {
        let mut numbers = [0.0; N];
        for number in &mut numbers {
            *number = self.number();
        }
        numbers
    }

    // A row or a column.
    pub(crate) fn place(&mut self) -> usize {
        self.word() as usize
    }

    // How many of eight places are lent.
    pub(crate) fn length(&mut self) -> usize
        ensures { result ≤ 8 }
    {
        self.word().min(8) as usize
    }
}
