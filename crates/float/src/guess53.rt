// A guess at a root of 53 digits, and at its inverse. It promises nothing, and nothing rests on it: `tried53` tests what comes of it, so a
// wrong guess costs time and no digit.
use crate::curves53::CURVES;
use crate::width::Bits;

// In units of 2^-63 and 2^-64, for a number that is scaled by fours to be from 1 up to 4.
#[derive(Clone, Copy)]
pub(crate) struct Guess {
    pub root: Bits,
    pub inverse: Bits,
}

fn product(x: u32, y: u32) -> Bits {
    Bits::from(x) * Bits::from(y)
}

// The product of two fractions in units of 2^-32, in the same units.
fn scaled_product(x: u32, y: u32) -> u32 {
    (product(x, y) / 0x1_0000_0000) as u32
}

// For the normal number with the pattern b: the interval is the lowest digit of the exponent and the next 5, and d the 32 digits after them.
pub(crate) fn guess_for(b: Bits) -> Guess {
    let c = &CURVES[(b / 0x8000_0000_0000 % 64) as usize];
    let d = (b / 0x8000 % 0x1_0000_0000) as u32;
    let d2 = scaled_product(d, d);
    let d3 = scaled_product(d2, d);
    Guess {
        root: c
            .r0
            .wrapping_add(product(c.r1, d))
            .wrapping_sub(product(c.r2, d2))
            .wrapping_add(product(c.r3, d3)),
        inverse: c
            .w0
            .wrapping_sub(product(c.w1, d))
            .wrapping_add(product(c.w2, d2))
            .wrapping_sub(product(c.w3, d3)),
    }
}
