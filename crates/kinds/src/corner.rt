// Values on corners: what the middle of two is.
ghost use Rattle.std.specs.Prelude.{◌≡◌};

use crate::row::Rowed;

pub trait CornerKind: Rowed {
    ghost middle: { Self → Self → Self };

    fn midway(&self, other: &Self) -> Self
        ensures { result ≡ middle self.now other.now };

    // The middle is even-handed: the same with the two values exchanged.
    ghost even: { (a b : Self) → middle a b ≡ middle b a };
}
