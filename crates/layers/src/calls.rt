// The public call `layers`. It takes no description and keeps nothing; the table is only read.
ghost use Rattle.std.specs.Prelude.{◌≡◌, length, IfOk};
ghost use Rattle.limits.specs.Refusals.{number_of};
ghost use Rattle.layers.specs.Layers.{layers_number, layers_report, Reported};
ghost use Rattle.layers.specs.Admitted.{Admitted};

use crate::report::write;
use limits::refusals::{Refusal, refuse};
use limits::ticks::side;
use sound::sound;
use tree::shift::shift;

// A run of layers: the coordinate of the first, as boxes keep it, and how many.
#[derive(Clone, Copy, Debug, PartialEq, Eq)]
struct Run {
    low: usize,
    layers: usize,
}

// The run that the call reports, into a buffer of `room` bytes, or the first refusal.
#[tactic(auto, using(limits::proofs::RefusalLaws::stopped, limits::proofs::RefusalLaws::passed_on), unfolding(crate::specs::Layers::layers_number))]
fn run_of(table: &[u8], low: i64, high: i64, room: usize) -> Result<Run, Refusal>
    ensures answer { number_of result ≡ layers_number table.now low high room }
    ensures run { IfOk result (Admitted table.now low high room) }
{
    refuse(!sound(table), Refusal::Unsound)?;
    refuse(!side(low, high), Refusal::Layers)?;
    let from = shift(low);
    let n = shift(high) - from;
    refuse(room < 24 * n, Refusal::Report)?;
    Ok(Run {
        low: from,
        layers: n,
    })
}

// Of the layers `low` to `high` − 1, in ticks.
pub fn layers(table: &[u8], low: i64, high: i64, report: &mut [u8]) -> Result<(), Refusal>
    ensures answer { number_of result ≡ layers_number table.now low high (length report.old) }
    ensures left { report.new ≡ layers_report table.now low high report.old }
    ensures reported { number_of result ≡ 0 → Reported table.now low high report.new }
{
    let run = run_of(table, low, high, report.len())?;
    write(table, run.low, run.layers, report);
    Ok(())
}
