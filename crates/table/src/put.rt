// What is written to a table: zeros, slot 0 and the slot of a cell. A contract names the run of bytes that is stored and where; every other
// byte stays as it was.
ghost use Rattle.std.specs.Prelude.{◌≡◌, ◌++◌, ◌+◌, ◌-◌, ◌*◌, ◌≤◌, ◌<◌, length, replicate};
ghost use Rattle.std.proofs.lemmas.List.Edits.{sets};
ghost use Rattle.tree.specs.Box.{unshifted, box_of};
ghost use Rattle.table.specs.Table.{word4, word8, bits, head_bytes, state_word, cell_bytes};
ghost use Rattle.table.specs.Read.{state_offset};
ghost use Rattle.table.specs.Bounds.{WithinTicks};

use crate::offsets::{CELLS, COORDINATES, EVALUATED, HEAD_ZEROS, OPEN, SOLID, STATE};
use crate::{Cell, Head};
use tree::shift::unshift;

// Sets every byte from an index on to zero.
pub fn zero(t: &mut [u8], from: usize)
    requires { from ≤ length t.old }
    ensures { t.new ≡ sets t.old from (replicate (length t.old - from) 0) }
{
    t[from..].fill(0);
}

// Bytes from an index on. By `copy_from_slice` a cell's slot takes five times as long: it asks each time whether the two overlap.
fn put_bytes<const N: usize>(t: &mut [u8], at: usize, bytes: [u8; N])
    requires { at + N ≤ length t.old }
    ensures { t.new ≡ sets t.old at bytes.entry }
{
    for i in 0..N {
        t[at + i] = bytes[i];
    }
}

// The low 32 bits as a u32, little endian, from an index on.
fn put_u32(t: &mut [u8], at: usize, x: usize)
    requires { at + 4 ≤ length t.old }
    ensures { t.new ≡ sets t.old at (word4 x) }
{
    let [a, b, c, d, ..] = x.to_le_bytes();
    put_bytes(t, at, [a, b, c, d]);
}

pub fn put_u64(t: &mut [u8], at: usize, x: usize)
    requires { at + 8 ≤ length t.old }
    ensures { t.new ≡ sets t.old at (word8 x) }
{
    put_bytes(t, at, x.to_le_bytes());
}

// A coordinate as an i32.
fn put_coordinate(t: &mut [u8], at: usize, u: usize)
    requires u_bound { u ≤ 2097152 }
    requires at_in_bounds { at + 4 ≤ length t.old }
    ensures { t.new ≡ sets t.old at (word4 (bits (unshifted u))) }
{
    put_bytes(t, at, (unshift(u) as i32).to_le_bytes());
}

// Three coordinates.
fn put_corner(t: &mut [u8], at: usize, x: usize, y: usize, z: usize)
    requires x_bound { x ≤ 2097152 }
    requires y_bound { y ≤ 2097152 }
    requires z_bound { z ≤ 2097152 }
    requires at_in_bounds { at + 12 ≤ length t.old }
    ensures { t.new ≡ sets t.old at (word4 (bits (unshifted x)) ++ word4 (bits (unshifted y)) ++ word4 (bits (unshifted z))) }
{
    put_coordinate(t, at, x);
    put_coordinate(t, at + 4, y);
    put_coordinate(t, at + 8, z);
}

// Slot 0.
pub fn put_head(t: &mut [u8], head: Head)
    requires { 32 ≤ length t.old }
    ensures { t.new ≡ sets t.old 0 (head_bytes head) }
{
    put_u32(t, 0, head.first);
    put_u32(t, CELLS, head.cells);
    put_u32(t, EVALUATED, head.evaluated);
    put_u64(t, SOLID, head.solid);
    put_u64(t, OPEN, head.open);
    put_u32(t, HEAD_ZEROS, 0);
}

// The state word of the record at an index: state, depth and two zeros.
fn put_state_word(t: &mut [u8], at: usize, state: usize, depth: usize)
    requires { at + 8 ≤ length t.old }
    ensures { t.new ≡ sets t.old (at + state_offset) (state_word state depth) }
{
    put_bytes(
        t,
        at + STATE,
        [(state % 256) as u8, (depth % 256) as u8, 0, 0],
    );
}

// The slot of a cell.
pub fn put_cell(t: &mut [u8], slot: usize, cell: Cell)
    requires within_ticks { WithinTicks cell.b }
    requires slot_in_bounds { 32 * (slot + 1) ≤ length t.old }
    ensures { t.new
        ≡ sets t.old (32 * slot) (cell_bytes cell.next (record { state = cell.state; depth = cell.depth; box = box_of cell.b })) }
{
    let at = 32 * slot;
    let b = cell.b;
    put_u32(t, at, cell.next);
    put_state_word(t, at, cell.state, cell.depth);
    put_corner(t, at + COORDINATES, b.x.low, b.y.low, b.z.low);
    put_corner(t, at + COORDINATES + 12, b.x.high, b.y.high, b.z.high);
}
