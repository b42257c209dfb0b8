// The bytes of a report: three numbers a layer, of which each cell raises one in the layers that it crosses.
ghost use Rattle.std.specs.Prelude.{◌≡◌, true, ◌+◌, ◌-◌, ◌*◌, ◌≤◌, ◌<◌, length};
ghost use Rattle.tree.specs.Box.{unshifted};
ghost use Rattle.table.specs.Read.{records_in};
ghost use Rattle.sound.specs.Sound.{sound_of};
ghost use Rattle.layers.specs.Layers.{report_of};
ghost use Rattle.layers.specs.Added.{added_to, Fitting, layers_below};

use sound::box_of;
use table::get::{head_of, next_of, state_of, u64_at};
use table::put::put_u64;

// How many of n layers from `low` on lie below z.
fn layers_below(z: usize, low: usize, n: usize) -> usize
    ensures { result ≡ layers_below z low n }
{
    // As `z.saturating_sub(low).min(n)` the whole report takes a third longer.
    if z < low { 0 } else { (z - low).min(n) }
}

// Adds v to a column of the layers from `first` to `end`. An index runs over the places: behind `chunks_mut`, `iter_mut` a proof knows no
// elements.
fn add(r: &mut [u8], first: usize, end: usize, column: usize, v: usize)
    requires end_bound { end ≤ 2097152 }
    requires end_in_bounds { 24 * end ≤ length r.old }
    requires column_bound { column < 3 }
    requires fitting { Fitting (end - first) first column v r.old }
    ensures { r.new ≡ added_to (end - first) first column v r.old }
{
    for k in first..end {
        let at = 24 * k + 8 * column;
        let x = u64_at(r, at);
        put_u64(r, at, x + v);
    }
}

// The report of n layers from `low` on, a coordinate as boxes keep it. The chain is followed by hand: as an iterator it would be no plainer,
// since what a turn knows of the slot (here that all are sound) differs from reader to reader.
pub(crate) fn write(t: &[u8], low: usize, n: usize, r: &mut [u8])
    requires t_value { sound_of t.now ≡ true }
    requires n_bound { low + n ≤ 2097152 }
    requires n_in_bounds { 24 * n ≤ length r.old }
    ensures { r.new ≡ report_of (records_in t.now) n (unshifted low) r.old }
{
    r[..24 * n].fill(0);
    let head = head_of(t);
    let mut slot = head.first;
    for _ in 0..head.cells {
        let b = box_of(t, slot);
        let state = state_of(t, slot);
        let v = b.area();
        let first = layers_below(b.z.low, low, n);
        let end = layers_below(b.z.high, low, n);
        add(r, first, end, state - 1, v);
        slot = next_of(t, slot);
    }
}
