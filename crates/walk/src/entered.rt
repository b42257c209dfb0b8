// A call that passes the refusals before 13: its leaf, its box, how deep it goes, and the axis that ties go to.
ghost use Rattle.std.specs.Prelude.{◌≡◌, ◌≤◌, IfOk};
ghost use Rattle.limits.specs.Refusals.{number_of};
ghost use Rattle.gyroid.specs.Refusals.{refusal};
ghost use Rattle.gyroid.specs.InUse.{leaf};
ghost use Rattle.tree.specs.Box.{Good, box_of};
ghost use Rattle.walk.specs.Walk.{spans, depths, entry_refusal};

use crate::TieRule;
use crate::ties::ties_by;
use gyroid::{Description, Gyroid};
use limits::refusals::{Refusal, refuse};
use limits::ticks::ticks;
use tree::{Axis, ShiftedBox};

#[derive(Clone, Copy)]
pub struct Entered {
    pub leaf: Gyroid,
    pub b: ShiftedBox,
    pub depth: usize,
    pub ties: Axis,
    ghost good: { Good (box_of b) },
    ghost shallow: { depth ≤ 24 },
}

// Whether every span is at least 1. The three axes are written out as in limits' `above`: as `any` over the axes its equation was not found.
fn spans(lo: [i64; 3], hi: [i64; 3]) -> bool
    ensures { result ≡ spans lo hi }
{
    (lo[0] < hi[0]) & (lo[1] < hi[1]) & (lo[2] < hi[2])
}

fn depths(depth: i64) -> bool
    ensures { result ≡ depths depth }
{
    (0..=24).contains(&depth)
}

// The leaf of a description, or the first refusal before 13.
fn entries(
    description: Description,
    lo: [i64; 3],
    hi: [i64; 3],
    depth: i64,
) -> Result<Gyroid, Refusal>
    ensures answer { number_of result ≡ entry_refusal (refusal description) lo hi depth }
    ensures leaf { IfOk result (λ g. g ≡ leaf description) }
{
    refuse(!(ticks(lo) & ticks(hi)), Refusal::Limits)?;
    let leaf = Gyroid::certified(description)?;
    refuse(!spans(lo, hi), Refusal::Span)?;
    refuse(!depths(depth), Refusal::Depth)?;
    Ok(leaf)
}

impl Entered {
    ghost use Rattle.walk.specs.Entered.{Enters};

    pub fn of(
        description: Description,
        lo: [i64; 3],
        hi: [i64; 3],
        depth: i64,
        rule: TieRule,
    ) -> Result<Entered, Refusal>
        ensures answer { number_of result ≡ entry_refusal (refusal description) lo hi depth }
        ensures entered { IfOk result (Enters description lo hi depth rule) }
    {
        let leaf = entries(description, lo, hi, depth)?;
        Ok(Entered {
            leaf,
            b: ShiftedBox::of(lo, hi),
            depth: depth as usize,
            ties: ties_by(rule, leaf.grade.axis()),
        })
    }
}
