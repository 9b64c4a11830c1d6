// Functions whose NaNs no contract can tell apart, as C functions for a host that looks at the bits. Real is f64 (float::width).
#![tactic(auto)]

use float::width::{Bits, Real};

pub mod moves;

ghost use Rattle.std.specs.Prelude.{◌≡◌};
ghost use Rattle.float.specs.Width.{F};
ghost use Rattle.float.specs.Sign.{signum_of, signum_bits_of};
ghost use Rattle.float.specs.Root.{root_bits_of};
ghost use Rattle.float.specs.Root.{RootPromise};

#[unsafe(no_mangle)]
pub extern "C" fn zanikory_root(x: Real) -> Real
    ensures { RootPromise F x result }
{
    float::root::root(x)
}

#[unsafe(no_mangle)]
pub extern "C" fn zanikory_root_bits(b: Bits) -> Bits
    ensures { result ≡ root_bits_of F b }
{
    float::root::root_bits(b)
}

#[unsafe(no_mangle)]
pub extern "C" fn zanikory_signum(x: Real) -> Real
    ensures { result ≡ signum_of x }
{
    float::sign::signum(x)
}

#[unsafe(no_mangle)]
pub extern "C" fn zanikory_signum_bits(b: Bits) -> Bits
    ensures { result ≡ signum_bits_of F b }
{
    float::sign::signum_bits(b)
}
