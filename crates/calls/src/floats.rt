// Refusals of doubles: 9 over the whole input, then 10; three calls meet an infinite end between them.
ghost use Rattle.std.specs.Prelude.{◌≡◌};
ghost use Rattle.interval.specs.Interval.{ordered};
ghost use Rattle.limits.specs.Refusals.{number_of};
ghost use Rattle.calls.specs.Refusals.{near, all_ordered, all_near, box_refusal, finite_box_refusal, triangle_refusal};
ghost use Rattle.calls.specs.Calls.{point_box};

use gyroid::floats::{all_finite, within};
use interval::Interval;
use limits::refusals::{Refusal, refuse};

// No end or point of a call's float input may lie beyond it.
const FARTHEST: f64 = 1_099_511_627_776.0;

fn ordered(b: Interval) -> bool
    ensures { result ≡ ordered b }
{
    b.lo <= b.hi
}

#[tactic(auto, unfolding(crate::specs::Refusals::near))]
fn near(b: Interval) -> bool
    ensures { result ≡ near b }
{
    within(FARTHEST, b)
}

#[tactic(auto, unfolding(crate::specs::Refusals::all_ordered))]
fn all_ordered(w: [Interval; 3]) -> bool
    ensures { result ≡ all_ordered w }
{
    w.iter().all(|b| ordered(*b))
}

#[tactic(auto, unfolding(crate::specs::Refusals::all_near))]
fn all_near(w: [Interval; 3]) -> bool
    ensures { result ≡ all_near w }
{
    w.iter().all(|b| near(*b))
}

#[tactic(auto, unfolding(crate::specs::Refusals::box_refusal))]
pub fn refuse_box(w: [Interval; 3]) -> Result<(), Refusal>
    ensures { number_of result ≡ box_refusal w }
{
    refuse(!all_ordered(w), Refusal::Unordered)?;
    refuse(!all_near(w), Refusal::Far)
}

// An infinite end is not refused.
#[tactic(auto, unfolding(crate::specs::Refusals::finite_box_refusal))]
pub fn refuse_finite_box(world: [Interval; 3]) -> Result<(), Refusal>
    ensures { number_of result ≡ finite_box_refusal world }
{
    refuse(!all_ordered(world), Refusal::Unordered)?;
    refuse(all_finite(world) & !all_near(world), Refusal::Far)
}

#[tactic(auto, unfolding(crate::specs::Refusals::triangle_refusal))]
pub fn refuse_triangle(c: [[Interval; 3]; 3]) -> Result<(), Refusal>
    ensures { number_of result ≡ triangle_refusal c }
{
    let ordered = c.iter().all(|w| all_ordered(*w));
    let near = c.iter().all(|w| all_near(*w));
    refuse(!ordered, Refusal::Unordered)?;
    refuse(!near, Refusal::Far)
}

// A point as the box of its points.
pub fn point_box(p: [f64; 3]) -> [Interval; 3]
    ensures { result ≡ point_box p }
{
    p.map(Interval::point)
}
