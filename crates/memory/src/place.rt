// Where the sides of a box are looked up, and those of its halves. The slots of an axis are 32 for the sides of one depth of halving and 32 for
// those of the next, in the order in which they lie: so few sides that a walk meets one after the other have one slot.
ghost use Rattle.std.specs.Prelude.{◌≡◌, ◌+◌, ◌*◌, ◌%◌, ◌≤◌};
ghost use Rattle.memory.specs.Memory.{Slots};
ghost use Rattle.memory.specs.Places.{half_place, half_places, slot_places};

use crate::Places;
use tree::{Axis, Half};

// Of the half of a side: among the 32 of the other depth, twice as far on.
fn half(place: usize, h: Half) -> usize
    ensures { result ≡ half_place h place }
{
    let other = 32 - place % 64 / 32 * 32;
    other + 2 * (place % 16) + h as usize
}

// Among the 64 slots of an axis.
fn slot(axis: usize, place: usize) -> usize
    requires { axis ≤ 2 }
    ensures { result ≡ 64 * axis + place % 64 }
{
    64 * axis + place % 64
}

impl Places {
    pub fn root() -> Places
        ensures { result ≡ record { x = 1; y = 1; z = 1 } }
    {
        Places { x: 1, y: 1, z: 1 }
    }

    pub fn half(self, a: Axis, h: Half) -> Places
        ensures { result ≡ half_places h a self }
    {
        match a {
            Axis::X => Places {
                x: half(self.x, h),
                ..self
            },
            Axis::Y => Places {
                y: half(self.y, h),
                ..self
            },
            Axis::Z => Places {
                z: half(self.z, h),
                ..self
            },
        }
    }

    // The slots there.
    pub fn slots(self) -> Places
        ensures value { result ≡ slot_places self }
        ensures among { Slots result }
    {
        Places {
            x: slot(0, self.x),
            y: slot(1, self.y),
            z: slot(2, self.z),
        }
    }
}
