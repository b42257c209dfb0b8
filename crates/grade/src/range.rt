// The public call `grade_range`: the exact range of a level over a box of whole ticks. It refuses by document 01's numbers and takes any input.
ghost use Rattle.std.specs.Prelude.{◌≡◌};
ghost use Rattle.grade.specs.Calls.{range_said, range_call, AnswerHolds};

use crate::{Bounds, Grade, GradeDef};
use limits::refusals::Refusal;

pub fn grade_range(grade: Grade, lo: [i64; 3], hi: [i64; 3]) -> Result<Bounds, Refusal>
    ensures answer { range_said result ≡ range_call grade lo hi }
    ensures holds { AnswerHolds grade lo hi result }
{
    grade.range_refusal(lo, hi)?;
    Ok(GradeDef::compile(grade).range(lo, hi))
}
