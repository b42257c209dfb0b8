// A description's entries: their limits, the part frame, and the refusals in the order of document 01's table.
ghost use Rattle.std.specs.Prelude.{◌≡◌, pos};
ghost use Rattle.std.specs.Int.Signed.{le_z};
ghost use Rattle.limits.specs.Refusals.{number, number_of};
ghost use Rattle.grade.specs.Grade.{eq_z};
ghost use Rattle.gyroid.specs.Description.{frame_in_limits, kind, in_limits, part_frame};
ghost use Rattle.gyroid.specs.Refusals.{refusal};
ghost use Rattle.gyroid.specs.Constructors.{unsupported};

use crate::{Description, Frame};
use grade::GradeDef;
use limits::refusals::{Refusal, refuse};
use limits::ticks::{tick, ticks};

impl Frame {
    #[tactic(auto, unfolding(crate::specs::Description::frame_in_limits))]
    pub fn in_limits(self) -> bool
        ensures { result ≡ frame_in_limits self }
    {
        tick(self.w) & tick(self.x) & tick(self.y) & tick(self.z) & ticks(self.translation)
    }

    #[tactic(auto, unfolding(crate::specs::Description::part_frame))]
    pub fn is_part(self) -> bool
        ensures { result ≡ part_frame self }
    {
        (0 < self.w)
            & (self.x == 0)
            & (self.y == 0)
            & (self.z == 0)
            & (self.translation == [0, 0, 0])
    }
}

// The kinds are 0 network, 1 sheet and 2 primitive.
fn kind(x: i64) -> bool
    ensures { result ≡ kind x }
{
    (0..=2).contains(&x)
}

impl Description {
    #[tactic(auto, unfolding(crate::specs::Description::in_limits))]
    pub fn in_limits(self) -> bool
        ensures { result ≡ in_limits self }
    {
        tick(self.period) & kind(self.kind) & self.level.in_limits() & self.frame.in_limits()
    }

    fn has_no_period(self) -> bool
        ensures { result ≡ le_z self.period (pos 0) }
    {
        self.period <= 0
    }

    fn is_sheet(self) -> bool
        ensures { result ≡ eq_z self.kind (pos 1) }
    {
        self.kind == 1
    }

    // A level is compiled only once it is within its limits and not refused.
    #[tactic(auto, using(limits::proofs::RefusalLaws::stopped, limits::proofs::RefusalLaws::passed_on, crate::proofs::AcceptedLaws::tested_level, crate::proofs::AcceptedLaws::tested_fits), unfolding(crate::specs::Refusals::refusal))]
    pub fn refusal(self) -> Result<(), Refusal>
        ensures { number_of result ≡ refusal self }
    {
        let level = self.level;
        let frame = self.frame;
        refuse(!self.in_limits(), Refusal::Limits)?;
        refuse(self.has_no_period(), Refusal::Degenerate)?;
        refuse(self.is_sheet(), Refusal::Unsupported)?;
        refuse(level.coincident(), Refusal::Degenerate)?;
        refuse(level.is_distance(), Refusal::Unsupported)?;
        let grade = GradeDef::compile(level);
        grade.check_certified()?;
        refuse(!frame.is_part(), Refusal::Unsupported)
    }
}

// Why the wrapper `new` refuses: 4 and 5 become 3.
pub fn unsupported(why: Refusal) -> Refusal
    ensures { number result ≡ unsupported (number why) }
{
    match why {
        Refusal::Axes | Refusal::Slope => Refusal::Unsupported,
        _ => why,
    }
}
