// What an exported call reads from the slices lent to it, once their lengths are known.
ghost use Rattle.std.specs.Prelude.{◌≡◌, ◌+◌, ◌≤◌, [], ◌∷◌, get_or, length};
ghost use Rattle.capi.specs.Lent as lent;
ghost use Rattle.capi.specs.Exports as exports;

use grade::{Grade, Piece};
use gyroid::{Description, Frame};
use interval::Interval;
use walk::TieRule;

// The three entries from place `at` on.
pub fn three_at<T: Copy>(s: &[T], at: usize) -> [T; 3]
    requires { at + 3 ≤ length s.now }
    ensures { (other : T) → result ≡ get_or s.now at other ∷ get_or s.now (at + 1) other ∷ get_or s.now (at + 2) other ∷ [] }
{
    [s[at], s[at + 1], s[at + 2]]
}

#[tactic(auto, using(crate::proofs::NumberLaws::read_back), unfolding(crate::specs::Lent::level))]
pub fn level_of(description: &[i64]) -> Grade
    requires { length description.now ≡ 18 }
    ensures { result ≡ lent.level description.now }
{
    Grade {
        kind: description[2],
        from: three_at(description, 3),
        to: three_at(description, 6),
        start: description[9],
        end: description[10],
    }
}

#[tactic(auto, using(crate::proofs::NumberLaws::read_back), unfolding(crate::specs::Lent::frame))]
fn frame_of(description: &[i64]) -> Frame
    requires { length description.now ≡ 18 }
    ensures { result ≡ lent.frame description.now }
{
    Frame {
        w: description[11],
        x: description[12],
        y: description[13],
        z: description[14],
        translation: three_at(description, 15),
    }
}

#[tactic(auto, using(crate::proofs::NumberLaws::read_back), unfolding(crate::specs::Lent::description))]
pub fn describe(description: &[i64]) -> Description
    requires { length description.now ≡ 18 }
    ensures { result ≡ lent.description description.now }
{
    Description {
        period: description[0],
        kind: description[1],
        level: level_of(description),
        frame: frame_of(description),
    }
}

fn interval_at(s: &[f64], at: usize) -> Interval
    requires { at + 2 ≤ length s.now }
    ensures { result ≡ lent.interval s.now at }
{
    Interval {
        lo: s[at],
        hi: s[at + 1],
    }
}

pub fn world_at(s: &[f64], at: usize) -> [Interval; 3]
    requires { at + 6 ≤ length s.now }
    ensures { result ≡ lent.box s.now at }
{
    [
        interval_at(s, at),
        interval_at(s, at + 2),
        interval_at(s, at + 4),
    ]
}

pub fn corners_at(s: &[f64]) -> [[Interval; 3]; 3]
    requires { length s.now ≡ 18 }
    ensures { result ≡ lent.triangle s.now }
{
    [world_at(s, 0), world_at(s, 6), world_at(s, 12)]
}

// The piece of a number, in the original's order: 0 Start, 1 Ramp, 2 and every number above it End. That it is at most 2, `piece_lent` tests.
pub fn piece_of(number: u32) -> Piece
    ensures { result ≡ exports.piece number }
{
    match number {
        0 => Piece::Start,
        1 => Piece::Ramp,
        _ => Piece::End,
    }
}

// The tie rule of a number: 0 is the default, and every other number the lowest-axis rule. That it is at most 1, `walk_lent` tests.
pub fn rule_of(number: u32) -> TieRule
    ensures { result ≡ exports.tie_rule number }
{
    match number {
        0 => TieRule::GradeAxis,
        _ => TieRule::LowestAxis,
    }
}
