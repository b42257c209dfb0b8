// The halving: the longest span, at its middle, and the axis that ties go to.
ghost use Rattle.std.specs.Prelude.{◌≡◌};
ghost use Rattle.tree.specs.Box.{Good, span, longest, cut, half_of, box_of};

use crate::{Axis, Half, ShiftedBox};

impl ShiftedBox {
    #[tactic(auto, using(crate::proofs::ShiftedLaws::sides))]
    fn span(self, a: Axis) -> usize
        requires { Good (box_of self) }
        ensures { result ≡ span a (box_of self) }
    {
        match a {
            Axis::X => self.x.span(),
            Axis::Y => self.y.span(),
            Axis::Z => self.z.span(),
        }
    }

    // The axis of the longest span, the lowest where spans tie.
    #[tactic(auto, using(crate::proofs::ShiftedLaws::sides, crate::proofs::LongestLaws::by_tests))]
    fn longest(self) -> Axis
        requires { Good (box_of self) }
        ensures { result ≡ longest (box_of self) }
    {
        let [x, y, z] = self.spans();
        if y <= x && z <= x {
            Axis::X
        } else if z <= y {
            Axis::Y
        } else {
            Axis::Z
        }
    }

    // The axis of the longest span: where spans tie, `ties` if it is among them, otherwise the lowest.
    #[tactic(auto, unfolding(crate::specs::Box::cut))]
    pub fn cut(self, ties: Axis) -> Axis
        requires { Good (box_of self) }
        ensures { result ≡ cut ties (box_of self) }
    {
        let longest = self.longest();
        if self.span(ties) == self.span(longest) {
            ties
        } else {
            longest
        }
    }

    #[tactic(auto, using(crate::proofs::ShiftedLaws::sides))]
    pub fn half(self, a: Axis, h: Half) -> ShiftedBox
        requires { Good (box_of self) }
        ensures { box_of result ≡ half_of h a (box_of self) }
    {
        match a {
            Axis::X => ShiftedBox {
                x: self.x.half(h),
                ..self
            },
            Axis::Y => ShiftedBox {
                y: self.y.half(h),
                ..self
            },
            Axis::Z => ShiftedBox {
                z: self.z.half(h),
                ..self
            },
        }
    }
}
