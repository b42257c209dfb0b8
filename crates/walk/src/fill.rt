// The cells of the tree, written to their slots in walk order as the walk comes to them. No box is evaluated twice.
ghost use Rattle.std.specs.Prelude.{◌≡◌, cond, true, false, ◌+◌, ◌-◌, ◌/◌, ◌≤◌, ◌<◌, length};
ghost use Rattle.tree.specs.Box.{Good, box_of, cut};
ghost use Rattle.tree.specs.Tree.{leaves};
ghost use Rattle.walk.specs.FunctionsInUse.{settled};
ghost use Rattle.walk.specs.Counted.{filled_of, Written};

use crate::{Counted, Node, Step};
use memory::Memory;
use table::Cell;
use table::put::put_cell;
use tree::{Axis, Half};

// Where the cells of a box go, and what is written of them.
#[derive(Clone, Copy, Debug, PartialEq, Eq)]
pub struct Writing {
    pub slot: usize, // of the first cell
    pub fresh: usize, // of the others, from here on
    pub last: bool, // whether the last of them is the last of all
    pub after: usize, // what the last of all names: 0 in a walk, and `fill` promises of any, as docs/DECISIONS.md has it
    pub limit: usize, // the depth that is left at the root of the walk
    pub ties: Axis, // the axis that ties go to
}

impl Writing {
    // Of the root's cells: slot 0 is the head's, and the last of them ends the chain.
    pub fn root(limit: usize, ties: Axis) -> Writing
        ensures { result ≡ record { slot = 1; fresh = 2; last = true; after = 0; limit = limit; ties = ties } }
    {
        Writing {
            slot: 1,
            fresh: 2,
            last: true,
            after: 0,
            limit,
            ties,
        }
    }

    // The slot that a cell names: `after` if it is the last of all, otherwise the one that the next cell goes to.
    fn named(self) -> usize
        ensures { result ≡ cond self.last self.after self.fresh }
    {
        if self.last { self.after } else { self.fresh }
    }

    // Of the cells of the lower half, none of which is the last of all.
    fn lower(self) -> Writing
        ensures { result ≡ record self { last = false } }
    {
        Writing {
            last: false,
            ..self
        }
    }

    // Of the cells of the upper half, behind those of the lower.
    fn upper(self, cells: usize) -> Writing
        requires some { 1 ≤ cells }
        requires few { self.fresh + cells ≤ 8589934592 }
        ensures { result ≡ record self { slot = self.fresh + cells - 1; fresh = self.fresh + cells - 1 + 1 } }
    {
        let slot = self.fresh + cells - 1;
        Writing {
            slot,
            fresh: slot + 1,
            ..self
        }
    }
}

// The first cell to the writing's slot, the others to the slots from `fresh` on, each naming the slot behind it. None as soon as a cell has no
// slot. The depth that is left is the falling number: a cell's depth is the limit less what is left at it.
pub fn fill(memory: &mut Memory, n: Node, depth: usize, t: &mut [u8], w: Writing) -> Option<Counted>
    requires good { Good (box_of n.b) }
    requires depth_le_limit { depth ≤ w.limit }
    requires limit_bound { w.limit ≤ 24 }
    requires slot_lt_fresh { w.slot < w.fresh }
    requires b_bound { w.fresh + leaves (settled memory.old.leaf) (cut w.ties) depth (box_of n.b) ≤ 8589934592 }
    ensures value { result ≡ filled_of memory.old.leaf (cut w.ties) depth (box_of n.b) w.fresh (length t.old / 32) }
    ensures written { Written memory.old.leaf (cut w.ties) t.old depth (box_of n.b) w.slot w.fresh w.last w.after w.limit t.new }
    ensures leaf { memory.new.leaf ≡ memory.old.leaf }
{
    match n.look(memory, depth, w.ties) {
        Step::Cell(s) => {
            if t.len() / 32 < w.fresh {
                return None;
            }
            let cell = Cell {
                next: w.named(),
                state: s as usize, // its number in the table
                depth: w.limit - depth,
                b: n.b,
            };
            put_cell(t, w.slot, cell);
            Some(Counted::cell(s, n.b))
        }
        Step::Halves(a) => {
            let left = depth - 1;
            let l = fill(memory, n.half(a, Half::Lower), left, t, w.lower())?;
            let h = fill(memory, n.half(a, Half::Upper), left, t, w.upper(l.cells))?;
            Some(l.joined(h))
        }
    }
}
