// What is read from a table: a number at an index, little endian, slot 0, and a cell's record.
ghost use Rattle.std.specs.Prelude.{◌≡◌, ◌+◌, ◌*◌, ◌≤◌, ◌<◌, length, take, drop};
ghost use Rattle.tree.specs.Box.{lows, highs};
ghost use Rattle.table.specs.Read.{u32_at, u64_at, i32_at, head_in, next_in, coordinate_in, record_in};

use crate::Head;
use crate::offsets::{CELLS, COORDINATES, DEPTH, EVALUATED, OPEN, SOLID, STATE};

// The N bytes from an index on.
fn bytes_at<const N: usize>(t: &[u8], at: usize) -> [u8; N]
    requires { at + N ≤ length t.now }
    ensures { result ≡ take N (drop at t.now) }
{
    t[at..at + N].try_into().unwrap()
}

fn u32_at(t: &[u8], at: usize) -> usize
    requires { at + 4 ≤ length t.now }
    ensures value { result ≡ u32_at t.now at }
    ensures upper_bound { result < 4294967296 }
{
    u32::from_le_bytes(bytes_at(t, at)) as usize
}

pub fn u64_at(t: &[u8], at: usize) -> usize
    requires { at + 8 ≤ length t.now }
    ensures { result ≡ u64_at t.now at }
{
    usize::from_le_bytes(bytes_at(t, at))
}

fn i32_at(t: &[u8], at: usize) -> i64
    requires { at + 4 ≤ length t.now }
    ensures { result ≡ i32_at t.now at }
{
    i64::from(i32::from_le_bytes(bytes_at(t, at)))
}

// Slot 0.
pub fn head_of(t: &[u8]) -> Head
    requires { 32 ≤ length t.now }
    ensures { result ≡ head_in t.now }
{
    Head {
        first: u32_at(t, 0),
        cells: u32_at(t, CELLS),
        evaluated: u32_at(t, EVALUATED),
        solid: u64_at(t, SOLID),
        open: u64_at(t, OPEN),
    }
}

// A record is read where it stands, by the table and the slot: of a slot lent alone no contract could say `next_in` of the table.
// The slot that a cell's record names.
pub fn next_of(t: &[u8], slot: usize) -> usize
    requires { 32 * (slot + 1) ≤ length t.now }
    ensures { result ≡ next_in t.now slot }
{
    u32_at(t, 32 * slot)
}

#[tactic(auto, unfolding(crate::specs::Read::record_in))]
pub fn state_of(t: &[u8], slot: usize) -> usize
    requires { 32 * (slot + 1) ≤ length t.now }
    ensures { result ≡ (record_in t.now slot).state }
{
    usize::from(t[32 * slot + STATE])
}

#[tactic(auto, unfolding(crate::specs::Read::record_in))]
pub fn depth_of(t: &[u8], slot: usize) -> usize
    requires { 32 * (slot + 1) ≤ length t.now }
    ensures { result ≡ (record_in t.now slot).depth }
{
    usize::from(t[32 * slot + DEPTH])
}

// One of its three lows and three highs, counted from 0.
pub fn coordinate_of(t: &[u8], slot: usize, i: usize) -> i64
    requires i_bound { i < 6 }
    requires slot_in_bounds { 32 * (slot + 1) ≤ length t.now }
    ensures { result ≡ coordinate_in t.now slot i }
{
    i32_at(t, 32 * slot + COORDINATES + 4 * i)
}

// Its three lows.
#[tactic(auto, unfolding(crate::specs::Read::record_in))]
pub fn lows_of(t: &[u8], slot: usize) -> [i64; 3]
    requires { 32 * (slot + 1) ≤ length t.now }
    ensures { result ≡ lows (record_in t.now slot).box }
{
    [
        coordinate_of(t, slot, 0),
        coordinate_of(t, slot, 1),
        coordinate_of(t, slot, 2),
    ]
}

// Its three highs.
#[tactic(auto, unfolding(crate::specs::Read::record_in))]
pub fn highs_of(t: &[u8], slot: usize) -> [i64; 3]
    requires { 32 * (slot + 1) ≤ length t.now }
    ensures { result ≡ highs (record_in t.now slot).box }
{
    [
        coordinate_of(t, slot, 3),
        coordinate_of(t, slot, 4),
        coordinate_of(t, slot, 5),
    ]
}
