// A whole tree, counted without a table.
ghost use Rattle.std.specs.Prelude.{◌≡◌, ◌≤◌};
ghost use Rattle.tree.specs.Box.{Good, box_of, cut};
ghost use Rattle.walk.specs.Counted.{counted_of};

use crate::{Counted, Node, Step};
use memory::Memory;
use tree::{Axis, Half};

// With the depth that is left as the falling number.
pub fn count(memory: &mut Memory, n: Node, depth: usize, ties: Axis) -> Counted
    requires good { Good (box_of n.b) }
    requires depth_bound { depth ≤ 24 }
    ensures value { result ≡ counted_of memory.old.leaf (cut ties) depth (box_of n.b) }
    ensures leaf { memory.new.leaf ≡ memory.old.leaf }
{
    match n.look(memory, depth, ties) {
        Step::Cell(s) => Counted::cell(s, n.b),
        Step::Halves(a) => {
            let left = depth - 1;
            let l = count(memory, n.half(a, Half::Lower), left, ties);
            let h = count(memory, n.half(a, Half::Upper), left, ties);
            l.joined(h)
        }
    }
}
