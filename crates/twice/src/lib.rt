// The plain walk in two passes, kept for the benchmark alone: it counts the whole tree before it writes a byte. Document 02: "A benchmark on
// a core of 100,000 cells or more shows at most two thirds of the time of a plain two-pass walk kept for it." It promises what the walk
// promises of its number and of its table.
#![tactic(auto)]

pub mod two_passes; // the walk, counted and then written

ghost use Rattle.std.specs.Prelude.{◌≡◌, length};
ghost use Rattle.capi.specs.Exports as exports;

use crate::two_passes::walk_twice;
use capi::lengths::walk_lent;
use capi::reading::{describe, three_at};
use capi::writing::done;

// As `gyroid_walk`.
pub fn gyroid_walk_twice(
    description: &[i64],
    bounds: &[i64],
    depth: i64,
    rule: u32,
    table: &mut [u8],
) -> u32
    ensures answer { result ≡ exports.walk_status description.now bounds.now depth rule (length table.old) }
    ensures left { table.new ≡ exports.walk_left description.now bounds.now depth rule table.old }
{
    match walk_lent(description.len(), bounds.len(), rule) {
        Ok(rule) => done(walk_twice(
            describe(description),
            three_at(bounds, 0),
            three_at(bounds, 3),
            depth,
            rule,
            table,
        )),
        Err(fault) => fault.into(),
    }
}
