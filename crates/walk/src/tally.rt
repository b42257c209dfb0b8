// What one cell counts, what two halves count together, and slot 0 of what is counted.
ghost use Rattle.std.specs.Prelude.{◌≡◌, ◌≤◌};
ghost use Rattle.tree.specs.Box.{Good, box_of, volume};
ghost use Rattle.walk.specs.Counted.{one_cell, joined_of, Adds, head_with};

use crate::Counted;
use crate::visit::solid;
use gyroid::State;
use table::Head;
use tree::ShiftedBox;

impl Counted {
    pub fn cell(s: State, b: ShiftedBox) -> Counted
        requires { Good (box_of b) }
        ensures { result ≡ one_cell s (box_of b) }
    {
        Counted {
            cells: 1,
            evaluated: 1,
            solid: solid(s, b),
        }
    }

    // With the upper half's, and the box itself: no `+`, which would not say that the box counts too.
    pub fn joined(self, h: Counted) -> Counted
        requires { Adds self h }
        ensures { result ≡ joined_of self h }
    {
        Counted {
            cells: self.cells + h.cells,
            evaluated: 1 + self.evaluated + h.evaluated,
            solid: self.solid + h.solid,
        }
    }

    // Slot 0 of the table of a box of which this is counted.
    pub fn head(self, b: ShiftedBox) -> Head
        requires good { Good (box_of b) }
        requires solid_bound { self.solid ≤ volume (box_of b) }
        ensures { result ≡ head_with self (box_of b) }
    {
        Head {
            first: 1,
            cells: self.cells,
            evaluated: self.evaluated,
            solid: self.solid,
            open: b.volume() - self.solid,
        }
    }
}
