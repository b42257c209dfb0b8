// One side of a box: how far it reaches, and its halves.
ghost use Rattle.std.specs.Prelude.{◌≡◌, ◌+◌, ◌-◌, ◌/◌, ◌≤◌};
ghost use Rattle.tree.specs.Box.{half_side};

use crate::{Half, Side};

impl Side {
    pub fn span(self) -> usize
        requires { self.low ≤ self.high }
        ensures { result ≡ self.high - self.low }
    {
        self.high - self.low
    }

    // Where it is halved.
    fn middle(self) -> usize
        requires { self.low ≤ self.high }
        ensures { result ≡ self.low + (self.high - self.low) / 2 }
    {
        self.low + self.span() / 2
    }

    pub fn half(self, h: Half) -> Side
        requires { self.low ≤ self.high }
        ensures { result ≡ half_side h self }
    {
        match h {
            Half::Lower => Side {
                high: self.middle(),
                ..self
            },
            Half::Upper => Side {
                low: self.middle(),
                ..self
            },
        }
    }
}
