// A new memory, and the state of a box by it.
ghost use Rattle.std.specs.Prelude.{◌≡◌};
ghost use Rattle.gyroid.specs.InUse.{box_state};
ghost use Rattle.gyroid.specs.Admitted.{tick_box};
ghost use Rattle.tree.specs.Box.{Good, lows, highs, box_of};

use crate::{Memory, Places};
use gyroid::{Gyroid, State};
use tree::ShiftedBox;

impl Memory {
    // Of a leaf: it remembers nothing.
    pub fn new(leaf: Gyroid) -> Memory
        ensures { result.leaf ≡ leaf }
    {
        Memory {
            leaf,
            slots: [None; 192],
            terms: [None; 32],
        }
    }

    // The sides are looked up at p, and the second-order term by the depth that is left.
    pub fn state(&mut self, b: ShiftedBox, p: Places, depth: usize) -> State
        requires good { Good (box_of b) }
        ensures value { result ≡ box_state self.old.leaf (tick_box (lows (box_of b)) (highs (box_of b))) }
        ensures leaf { self.new.leaf ≡ self.old.leaf }
    {
        let p = p.slots();
        self.ready(b, p);
        let second = self.second(b, p, depth);
        match (second, self.part(p.x), self.part(p.y), self.part(p.z)) {
            (Some(second), Some(x), Some(y), Some(z)) => self.leaf.state_of_parts(x, y, z, second),
            _ => State::Unsettled,
        }
    }
}
