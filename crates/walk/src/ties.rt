// The axis that ties go to, by the rule that a caller names and the axis of a level. Ties to x are ties to the lowest axis.
ghost use Rattle.std.specs.Prelude.{◌≡◌};
ghost use Rattle.tree.specs.Box.{cut};
ghost use Rattle.walk.specs.Walk.{axis_at, cut_by};
ghost use Rattle.walk.specs.Rules.{rule_of};

use crate::TieRule;
use limits::refusals::Refusal;
use tree::Axis;

impl TryFrom<u32> for TieRule {
    type Error = Refusal;

    ghost try_from_gives = { λ n r. r ≡ rule_of n };

    fn try_from(number: u32) -> Result<TieRule, Refusal> {
        match number {
            0 => Ok(TieRule::GradeAxis),
            1 => Ok(TieRule::LowestAxis),
            _ => Err(Refusal::Limits),
        }
    }
}

fn axis_at(i: usize) -> Axis
    ensures { result ≡ axis_at i }
{
    match i {
        0 => Axis::X,
        1 => Axis::Y,
        _ => Axis::Z,
    }
}

#[tactic(auto, using(tree::proofs::CutLaws::to_x))]
pub fn ties_by(rule: TieRule, axis: Option<usize>) -> Axis
    ensures { cut result ≡ cut_by rule axis }
{
    match (rule, axis) {
        (TieRule::GradeAxis, Some(i)) => axis_at(i),
        (TieRule::GradeAxis, None) => Axis::X,
        (TieRule::LowestAxis, _) => Axis::X,
    }
}
