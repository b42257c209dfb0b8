// The public call `walk`: it compiles its description, refuses by document 01's numbers and writes the cells as it comes to them; where they
// outgrow the table it leaves every byte zero. It keeps nothing.
ghost use Rattle.std.specs.Prelude.{◌≡◌, nat_abs, length};
ghost use Rattle.limits.specs.Refusals.{number_of};
ghost use Rattle.tree.specs.Box.{box_from};
ghost use Rattle.walk.specs.InUse.{walk_number, walk_table, Supposed, Demand};

use crate::TieRule;
use crate::entered::Entered;
use gyroid::Description;
use limits::refusals::Refusal;

// Over the box of the lows `lo` and the highs `hi`, in ticks. A struct for the arguments would change the public call, which docs/PROOFS.md names.
pub fn walk(
    description: Description,
    lo: [i64; 3],
    hi: [i64; 3],
    depth: i64,
    rule: TieRule,
    table: &mut [u8],
) -> Result<(), Refusal>
    ensures answer { number_of result ≡ walk_number description lo hi depth rule (length table.old) }
    ensures left { table.new ≡ walk_table description lo hi depth rule table.old }
    ensures demand { Supposed description lo hi depth rule (length table.old)
        → Demand description (box_from lo hi) (nat_abs depth) rule table.new }
{
    Entered::of(description, lo, hi, depth, rule)?.run(table)
}
