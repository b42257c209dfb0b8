// A box of the tree: what is done at it, and its halves. Its state, and what a cell in that state counts.
ghost use Rattle.std.specs.Prelude.{◌≡◌, cond, ◌||◌, eqb};
ghost use Rattle.tree.specs.Box.{Good, box_of, cut, half_of, one_cube, volume};
ghost use Rattle.walk.specs.Walk.{is_settled, is_inside};
ghost use Rattle.walk.specs.Step.{step_at};

use crate::{Node, Step};
use gyroid::State;
use memory::{Memory, Places};
use tree::{Axis, Half, ShiftedBox};

// Whether a box in this state is a cell with the depth that is left.
fn stops(s: State, depth: usize, b: ShiftedBox) -> bool
    requires { Good (box_of b) }
    ensures { result ≡ (is_settled s || eqb depth 0 || one_cube (box_of b)) }
{
    s != State::Unsettled || depth == 0 || b.one_cube()
}

impl Node {
    pub fn root(b: ShiftedBox) -> Node
        ensures { result.b ≡ b }
    {
        Node {
            b,
            p: Places::root(),
        }
    }

    // The one place where a box is evaluated.
    pub fn look(self, memory: &mut Memory, depth: usize, ties: Axis) -> Step
        requires good { Good (box_of self.b) }
        ensures value { result ≡ step_at memory.old.leaf (cut ties) depth (box_of self.b) }
        ensures leaf { memory.new.leaf ≡ memory.old.leaf }
    {
        let s = memory.state(self.b, self.p, depth);
        if stops(s, depth, self.b) {
            return Step::Cell(s);
        }
        Step::Halves(self.b.cut(ties))
    }

    pub fn half(self, a: Axis, h: Half) -> Node
        requires { Good (box_of self.b) }
        ensures { box_of result.b ≡ half_of h a (box_of self.b) }
    {
        Node {
            b: self.b.half(a, h),
            p: self.p.half(a, h),
        }
    }
}

// The tick cubes of a cell, if it is inside.
pub fn solid(s: State, b: ShiftedBox) -> usize
    requires { Good (box_of b) }
    ensures { result ≡ cond (is_inside s) (volume (box_of b)) 0 }
{
    if s == State::Inside { b.volume() } else { 0 }
}
