// The list of the interval layer's answers. A case is seven words: the operation, four words that it takes, and the two ends of its answer.
// A number that is no double stands as 2^53 more than itself.
use crate::words::{each, float_of, number, same};
use interval::Interval;
use interval::floor::{floor, modulo_four, quarter_number};
use interval::nearest::{nearest, whole};
use interval::step::{next_down, next_up};
use lists::{Stop, read_full};
use std::io::Read;

const OFFSET: u64 = 0x20_0000_0000_0000;

// Answers that have a `requires` are given where it holds, and no interval at all elsewhere. It is one of NaN and no None: a list may hold NaN
// there, which then is the same, as `same` has it.
fn none() -> Interval {
    Interval::point(f64::NAN)
}

fn floor_of(y: f64) -> Interval {
    if -9007199254740992.0 <= y && y <= 9007199254740992.0 {
        return Interval::point(whole(floor(y)));
    }
    none()
}

fn quarter_of(t: f64) -> Interval {
    if -1125899906842624.0 <= t && t <= 1125899906842624.0 {
        return Interval::point(whole(quarter_number(t)));
    }
    none()
}

fn remainder_of(n: u64) -> Interval {
    let r = modulo_four(number(n));
    if r < 4 {
        return Interval::point(whole(r as i64));
    }
    none()
}

fn element(s: [Interval; 9], i: u64) -> Interval {
    if i < 9 {
        return s[i as usize];
    }
    none()
}

// What the operation answers of two intervals, or of words. The list's own word names it, and each number stands here alone: an enum of the
// operations would say the same numbers over again.
fn answer(op: u64, x: u64, y: u64, z: u64, w: u64) -> Interval {
    let a = Interval::new(float_of(x), float_of(y));
    let b = Interval::new(float_of(z), float_of(w));
    match op {
        0 => a + b,
        1 => a - b,
        2 => a * b,
        3 => a / b,
        4 => -a,
        5 => a.square(),
        6 => Interval::point(a.mid()),
        7 => Interval::point(a.magnitude()),
        8 => a.imin(b),
        9 => a.imax(b),
        10 => a.clamp01(),
        11 => Interval::new(next_down(a.lo), next_up(a.hi)),
        12 | 13 if y == 0 || OFFSET < y => none(),
        12 => Interval::from_rational(number(x), y),
        13 => Interval::point(nearest(number(x), y)),
        14 => floor_of(float_of(x)),
        15 => quarter_of(float_of(x)),
        16 => remainder_of(x),
        17 => element(Interval::sine(), x),
        18 => element(Interval::cosine(), x),
        19 => Interval::new(Interval::tail_sine(), Interval::tail_cosine()),
        _ => Interval::two_pi(),
    }
}

// The words that are read at once, of 1,024 cases.
pub(crate) const BLOCK: usize = 7168;

// Where among them the next case begins, and where the last one ends.
#[derive(Clone, Copy, Debug, PartialEq, Eq)]
pub(crate) struct Left {
    at: usize,
    end: usize,
}

impl Left {
    pub(crate) fn none() -> Left {
        Left { at: 0, end: 0 }
    }
}

// Whether the answer to the next case is the one that stands there; None where it has read the next block, since a block is read whole before any
// of its cases is tried. Fewer than seven words at the list's end are no case.
pub(crate) fn next<R: Read>(
    list: &mut R,
    block: &mut [[u8; 8]; BLOCK],
    left: &mut Left,
) -> Result<Option<bool>, Stop> {
    let Left { at, end } = *left;
    if end.min(BLOCK).saturating_sub(at) < 7 {
        let n = read_full(list, block.as_flattened_mut())?;
        if n == 0 {
            return Err(Stop::End);
        }
        *left = Left {
            at: 0,
            end: n / 56 * 7,
        };
        return Ok(None);
    }
    *left = Left { at: at + 7, end };
    let [op, x, y, z, w, lo, hi]: [u64; 7] = each(&block[at..at + 7], 0, u64::from_le_bytes);
    let r = answer(op, x, y, z, w);
    Ok(Some(same(r.lo, float_of(lo)) && same(r.hi, float_of(hi))))
}
