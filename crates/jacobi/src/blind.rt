// A turn that the mark does not vouch for. Real is f64 (float::width).
ghost use Rattle.std.specs.Prelude.{◌≡◌};
ghost use Rattle.float.specs.Width.{F};
ghost use Rattle.jacobi.specs.Blind.{blind_of};

use crate::rotation::Elements;
use float::width::EPSILON;

impl Elements {
    // Whether 45 degrees are taken for an apq that is not zero although app and aqq differ: they are so small that the crate does not look at their difference
    // (dense3x3/eigen.rs, lines 303 to 309).
    pub fn is_blind(self) -> bool
        ensures { result ≡ blind_of F self.apq self.app self.aqq }
    {
        if self.apq == 0.0 || self.app == self.aqq {
            return false;
        }
        self.diagonal() < EPSILON
    }
}
