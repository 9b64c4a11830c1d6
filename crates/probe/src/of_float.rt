// The float helpers. Most work on the item's first word alone.
use crate::answer::Answer;
use crate::item::Item;
use float::bits::{of_bits, to_bits};
use float::parts::parts_of;
use float::root::{root, root_bits};
use float::scaled::{larger, power_under, scaled};
use float::sign::{is_finite, magnitude, sign_bit, signum, signum_bits};

// The magnitude's parts: m, and the exponent in two's complement.
fn parts(item: &mut Item, out: &mut Answer) {
    let p = parts_of(item.word());
    out.word(p.m);
    out.word(p.e.cast_unsigned());
}

// A number, an exponent; the number times the power of two.
fn times_power(item: &mut Item, out: &mut Answer) {
    let x = item.number();
    out.number(scaled(x, item.word().cast_signed()));
}

// A length, eight places; the largest magnitude of the first so many, the exponent of the power of two under it.
fn power_of_largest(item: &mut Item, out: &mut Answer) {
    let n = item.length();
    let numbers = item.numbers::<8>();
    let largest = numbers[..n].iter().fold(0, |b, x| larger(b, *x));
    out.word(largest);
    out.word(power_under(largest).cast_unsigned());
}

pub(crate) fn float(op: u8, item: &mut Item, out: &mut Answer) -> Option<()> {
    match op {
        1 => out.number(root(item.number())),
        2 => out.number(magnitude(item.number())),
        3 => out.word(u64::from(sign_bit(item.number()))),
        4 => out.number(signum(item.number())),
        5 => out.word(u64::from(is_finite(item.number()))),
        6 => out.word(root_bits(item.word())),
        7 => out.word(signum_bits(item.word())),
        8 => parts(item, out),
        9 => times_power(item, out),
        10 => out.word(power_under(item.word()).cast_unsigned()),
        11 => power_of_largest(item, out),
        _ => return None,
    }
    Some(())
}
