// The width of the numbers: Real is f64. Every type and constant that another width would change stands here; only the library's function that
// writes a pattern, in `bits`, and the format F of specs/Width.antt stand elsewhere.
pub type Real = f64;

// What holds a pattern, and what holds an exponent.
pub type Bits = u64;

pub type Exponent = i64;

// The bytes of a number.
pub const NUMBER_SIZE: usize = 8;

// The digits of a number, and those below the leading one.
pub const PRECISION: Bits = 53;

pub const DIGITS: Exponent = 52;

// The exponent of the smallest number above 0, and the field of the exponent 0.
pub const LOWEST: Exponent = -1074;

pub const BIAS: Exponent = 1075;

// The exponent of the largest numbers, and the highest place of a word.
pub const GREATEST: Exponent = 1023;

pub const LAST_PLACE: Bits = 63;

// Half of the field of a number from 1 up to 2, rounded down.
pub const HALF_BIAS: Bits = 511;

// The weights in a pattern of the leading digit, which adds 1 to the exponent's field, and of the sign.
pub const LEADING: Bits = 0x10_0000_0000_0000;

pub const SIGN: Bits = 0x8000_0000_0000_0000;

// +infinity's pattern: with the sign off, the patterns above it are the NaNs'.
pub const INFINITY: Bits = 0x7ff0_0000_0000_0000;

// The pattern that stands for every NaN.
pub const NAN: Bits = 0x7ff8_0000_0000_0000;

// The patterns of 1 and -1.
pub const ONE: Bits = 0x3ff0_0000_0000_0000;

pub const MINUS_ONE: Bits = 0xbff0_0000_0000_0000;

// 2^-52, the distance from 1 to the next number, and 2^-44, which is 256 times that: what counts as nothing beside the diagonal.
pub const EPSILON: Real = Real::EPSILON;

pub const LIMIT: Real = 256.0 * EPSILON;

// The nearest number to 1 / sqrt 2.
pub const HALF_ROOT: Real = std::f64::consts::FRAC_1_SQRT_2;
