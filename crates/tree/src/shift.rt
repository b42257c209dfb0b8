// A coordinate and what is kept of it, each way.
ghost use Rattle.std.specs.Prelude.{◌≡◌, ◌≤◌};
ghost use Rattle.exact.specs.Within.{Within};
ghost use Rattle.tree.specs.Box.{unshifted, box_from, box_of};
ghost use Rattle.tree.specs.InTicks.{InTicks};

use crate::{ShiftedBox, Side};

pub fn shift(x: i64) -> usize
    requires { Within 1048576 x }
    ensures { (unshifted result ≡ x) × (result ≤ 2097152) }
{
    (x + 1048576) as usize
}

pub fn unshift(u: usize) -> i64
    requires { u ≤ 2097152 }
    ensures { result ≡ unshifted u }
{
    u as i64 - 1048576
}

impl Side {
    pub fn of(low: i64, high: i64) -> Side
        requires low_bound { Within 1048576 low }
        requires high_bound { Within 1048576 high }
        ensures low { unshifted result.low ≡ low }
        ensures high { unshifted result.high ≡ high }
    {
        Side {
            low: shift(low),
            high: shift(high),
        }
    }
}

impl ShiftedBox {
    pub fn of(lo: [i64; 3], hi: [i64; 3]) -> ShiftedBox
        requires { InTicks (box_from lo hi) }
        ensures { box_of result ≡ box_from lo hi }
    {
        ShiftedBox {
            x: Side::of(lo[0], hi[0]),
            y: Side::of(lo[1], hi[1]),
            z: Side::of(lo[2], hi[2]),
        }
    }
}
