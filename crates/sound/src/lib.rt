// Reading a table that anyone may have written: whether it is sound, by one pass along its chain. A chain that keeps to the slots 1 to n
// for n steps and then comes to zero has visited each of them once, so no slot is marked.
#![tactic(auto)]

ghost use Rattle.std.specs.Prelude.{◌≡◌, true, ◌+◌, ◌*◌, ◌≤◌, length};
ghost use Rattle.tree.specs.Box.{box_of};
ghost use Rattle.table.specs.Read.{record_in};
ghost use Rattle.sound.specs.Sound.{keeps_limits, sound_cell, sound_of};

use limits::ticks::side;
use table::get::{depth_of, head_of, highs_of, lows_of, next_of, state_of};
use tree::ShiftedBox;

// The tick cubes of all that coordinates reach.
const MOST: usize = 9223372036854775808;

fn keeps_limits(t: &[u8], slot: usize) -> bool
    requires { 32 * (slot + 1) ≤ length t.now }
    ensures { result ≡ keeps_limits (record_in t.now slot).box }
{
    let [lx, ly, lz] = lows_of(t, slot);
    let [hx, hy, hz] = highs_of(t, slot);
    side(lx, hx) & side(ly, hy) & side(lz, hz)
}

#[tactic(auto, unfolding(crate::specs::Sound::sound_cell))]
fn sound_cell(t: &[u8], slot: usize) -> bool
    requires { 32 * (slot + 1) ≤ length t.now }
    ensures { result ≡ sound_cell (record_in t.now slot) }
{
    (1..=3).contains(&state_of(t, slot)) & (depth_of(t, slot) <= 24) & keeps_limits(t, slot)
}

// The box of a sound cell.
pub fn box_of(t: &[u8], slot: usize) -> ShiftedBox
    requires slot_in_bounds { 32 * (slot + 1) ≤ length t.now }
    requires slot_value { sound_cell (record_in t.now slot) ≡ true }
    ensures { box_of result ≡ (record_in t.now slot).box }
{
    ShiftedBox::of(lows_of(t, slot), highs_of(t, slot))
}

pub fn sound(t: &[u8]) -> bool
    ensures { result ≡ sound_of t.now }
{
    let room = t.len() / 32;
    if room < 2 {
        return false;
    }
    let head = head_of(t);
    let n = head.cells;
    if n < 1 || room <= n {
        return false;
    }
    // The chain is followed by hand: as an iterator it would be no plainer, since what a turn knows of the slot (here what the turns before
    // have tested) differs from reader to reader.
    let mut slot = head.first;
    let mut sum: usize = 0;
    for _ in 0..n {
        if !(1..=n).contains(&slot) {
            return false;
        }
        if !sound_cell(t, slot) {
            return false;
        }
        let v = box_of(t, slot).volume();
        // Two volumes may come to 2^64.
        if MOST - sum < v {
            return false;
        }
        sum += v;
        slot = next_of(t, slot);
    }
    slot == 0
}
