// The size of a box: its spans, whether it is one tick cube, how many tick squares it has in a layer, and how many tick cubes.
ghost use Rattle.std.specs.Prelude.{◌≡◌, [], ◌∷◌};
ghost use Rattle.tree.specs.declared.Axis.TheVariants.{X, Y, Z};
ghost use Rattle.tree.specs.Box.{Good, span, one_cube, area, volume, box_of};

use crate::ShiftedBox;

impl ShiftedBox {
    #[tactic(auto, using(crate::proofs::ShiftedLaws::sides))]
    pub fn spans(self) -> [usize; 3]
        requires { Good (box_of self) }
        ensures { result ≡ span X (box_of self) ∷ span Y (box_of self) ∷ span Z (box_of self) ∷ [] }
    {
        [self.x.span(), self.y.span(), self.z.span()]
    }

    #[tactic(auto, unfolding(crate::specs::Box::one_cube))]
    pub fn one_cube(self) -> bool
        requires { Good (box_of self) }
        ensures { result ≡ one_cube (box_of self) }
    {
        self.spans() == [1, 1, 1]
    }

    #[tactic(auto, using(crate::proofs::ShiftedLaws::sides))]
    pub fn area(self) -> usize
        requires { Good (box_of self) }
        ensures { result ≡ area (box_of self) }
    {
        self.x.span() * self.y.span()
    }

    #[tactic(auto, using(crate::proofs::ShiftedLaws::sides), unfolding(crate::specs::Box::volume))]
    pub fn volume(self) -> usize
        requires { Good (box_of self) }
        ensures { result ≡ volume (box_of self) }
    {
        self.area() * self.z.span()
    }
}
