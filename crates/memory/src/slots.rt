// The slots. Which of its axis a side is looked up in needs no proof: the side that stands there decides.
ghost use Rattle.std.specs.Prelude.{◌≡◌, ◌↔◌, ◌≤◌, ◌<◌, IsTrue, option_copied};
ghost use Rattle.tree.specs.Box.{Good, box_of};
ghost use Rattle.memory.specs.Memory.{side, slot_at, part_in, Holds, Others, Slots, Ready};

use crate::{Memory, Places, Slot};
use gyroid::Part;
use interval::Interval;
use interval::nearest::nearest;
use tree::shift::unshift;
use tree::{ShiftedBox, Side};

// A side in millimetres.
fn side_of(s: Side) -> Interval
    requires low_bound { s.low ≤ 2097152 }
    requires high_bound { s.high ≤ 2097152 }
    ensures { result ≡ side s }
{
    Interval::new(
        nearest(unshift(s.low), 1024),
        nearest(unshift(s.high), 1024),
    )
}

impl Memory {
    // Whether the side stands in slot s.
    fn has(&self, s: usize, side: Side) -> bool
        requires { s < 192 }
        ensures { IsTrue result ↔ Holds self.now.slots s side }
    {
        self.slots[s].as_ref().is_some_and(|slot| slot.side == side)
    }

    // The part that stands in slot s.
    pub(crate) fn part(&self, s: usize) -> Option<&Part>
        requires { s < 192 }
        ensures { option_copied result ≡ part_in (slot_at self.now.slots s) }
    {
        self.slots[s].as_ref().and_then(|slot| slot.part.as_ref())
    }

    // The side stands in slot s at the end, and every other slot keeps its own.
    fn sure(&mut self, s: usize, side: Side)
        requires s_bound { s < 192 }
        requires low_bound { side.low ≤ 2097152 }
        requires high_bound { side.high ≤ 2097152 }
        ensures leaf { self.new.leaf ≡ self.old.leaf }
        ensures holds { Holds self.new.slots s side }
        ensures others { Others s self.old.slots self.new.slots }
    {
        if self.has(s, side) {
            return;
        }
        let part = self.leaf.part(s / 64, side_of(side));
        self.slots[s] = Some(Slot { side, part });
    }

    // The sides of a box stand in the slots p at the end.
    pub(crate) fn ready(&mut self, b: ShiftedBox, p: Places)
        requires good { Good (box_of b) }
        requires slots { Slots p }
        ensures leaf { self.new.leaf ≡ self.old.leaf }
        ensures ready { Ready self.new.slots b p }
    {
        // Mostly all three stand there: they are looked up without a branch between them.
        if self.has(p.x, b.x) & self.has(p.y, b.y) & self.has(p.z, b.z) {
            return;
        }
        self.sure(p.x, b.x);
        self.sure(p.y, b.y);
        self.sure(p.z, b.z);
    }
}
