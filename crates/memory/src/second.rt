// The second-order term of a box, remembered by its three spans: the boxes of one depth of a walk are mostly equally long.
ghost use Rattle.std.specs.Prelude.{◌≡◌, ◌<◌, Some, IfSome};
ghost use Rattle.tree.specs.Box.{Good, box_of};
ghost use Rattle.memory.specs.Memory.{term_at, Slots, Ready, IsTermOf};

use crate::{Memory, Places, Term};
use interval::Interval;
use tree::ShiftedBox;

impl Memory {
    // Term d, if it has these spans.
    fn term(&self, d: usize, spans: [usize; 3]) -> Option<Interval>
        requires { d < 32 }
        ensures { IfSome result (λ v. term_at self.now.terms d ≡ Some (record { spans = spans; value = v })) }
    {
        match &self.terms[d] {
            Some(term) if term.spans == spans => Some(term.value),
            _ => None,
        }
    }

    // Of a box whose sides stand in the slots p, looked up by the depth that is left at it: any number will do, since the spans decide. Where a side
    // has no part there may be none.
    pub(crate) fn second(&mut self, b: ShiftedBox, p: Places, depth: usize) -> Option<Interval>
        requires good { Good (box_of b) }
        requires slots { Slots p }
        requires ready { Ready self.old.slots b p }
        ensures value { IsTermOf self.old.leaf self.old.slots p result }
        ensures leaf { self.new.leaf ≡ self.old.leaf }
        ensures slots_2 { self.new.slots ≡ self.old.slots }
    {
        let d = depth % 32;
        let spans = b.spans();
        if let Some(value) = self.term(d, spans) {
            return Some(value);
        }
        let (x, y, z) = (self.part(p.x)?, self.part(p.y)?, self.part(p.z)?);
        let value = self.leaf.second_order(x.radius, y.radius, z.radius);
        self.terms[d] = Some(Term { spans, value });
        Some(value)
    }
}
