// The walk in two passes: it compiles its description, refuses by document 01's numbers, counts the whole tree and only then writes.
ghost use Rattle.std.specs.Prelude.{◌≡◌, length};
ghost use Rattle.limits.specs.Refusals.{number_of};
ghost use Rattle.tree.specs.Box.{box_of, cut};
ghost use Rattle.walk.specs.InUse.{room_refusal, room_table, walk_number, walk_table};

use gyroid::Description;
use limits::refusals::Refusal;
use memory::Memory;
use table::put::{put_head, zero};
use walk::count::count;
use walk::entered::Entered;
use walk::fill::{Writing, fill};
use walk::{Node, TieRule};

// Of a call that passes the refusals before 13.
fn run_twice(e: &Entered, table: &mut [u8]) -> Result<(), Refusal>
    ensures answer { number_of result ≡ room_refusal e.now.leaf (cut e.now.ties) e.now.depth (box_of e.now.b) (length table.old) }
    ensures left { table.new ≡ room_table e.now.leaf (cut e.now.ties) e.now.depth (box_of e.now.b) (length table.old) }
{
    let mut memory = Memory::new(e.leaf);
    let root = Node::root(e.b);
    let n = count(&mut memory, root, e.depth, e.ties);
    if table.len() / 32 < n.cells + 1 {
        zero(table, 0);
        return Err(Refusal::Room);
    }
    fill(
        &mut memory,
        root,
        e.depth,
        table,
        Writing::root(e.depth, e.ties),
    );
    zero(table, 32 * (n.cells + 1));
    put_head(table, n.head(e.b));
    Ok(())
}

// Over the box of the lows `lo` and the highs `hi`, in ticks.
pub fn walk_twice(
    description: Description,
    lo: [i64; 3],
    hi: [i64; 3],
    depth: i64,
    rule: TieRule,
    table: &mut [u8],
) -> Result<(), Refusal>
    ensures answer { number_of result ≡ walk_number description lo hi depth rule (length table.old) }
    ensures left { table.new ≡ walk_table description lo hi depth rule table.old }
{
    let e = Entered::of(description, lo, hi, depth, rule)?;
    run_twice(&e, table)
}
