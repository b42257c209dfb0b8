// The walk of a call that passes the refusals before 13. It makes a memory, lends it to the writer, and keeps nothing.
ghost use Rattle.std.specs.Prelude.{◌≡◌, length};
ghost use Rattle.limits.specs.Refusals.{number_of};
ghost use Rattle.tree.specs.Box.{box_of, cut};
ghost use Rattle.walk.specs.InUse.{room_refusal, room_table};

use crate::Node;
use crate::entered::Entered;
use crate::fill::{Writing, fill};
use limits::refusals::Refusal;
use memory::Memory;
use table::put::{put_head, zero};

impl Entered {
    // Refused where the cells outgrow the table.
    pub fn run(&self, table: &mut [u8]) -> Result<(), Refusal>
        ensures answer { number_of result ≡ room_refusal self.now.leaf (cut self.now.ties) self.now.depth (box_of self.now.b) (length table.old) }
        ensures left { table.new ≡ room_table self.now.leaf (cut self.now.ties) self.now.depth (box_of self.now.b) (length table.old) }
    {
        let mut memory = Memory::new(self.leaf);
        let answer = fill(
            &mut memory,
            Node::root(self.b),
            self.depth,
            table,
            Writing::root(self.depth, self.ties),
        );
        let Some(n) = answer else {
            zero(table, 0);
            return Err(Refusal::Room);
        };
        zero(table, 32 * (n.cells + 1));
        put_head(table, n.head(self.b));
        Ok(())
    }
}
