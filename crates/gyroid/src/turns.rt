// `turn`: sine and cosine of one turn coordinate, by a quarter number taken off and nine terms of each series.
ghost use Rattle.std.specs.Prelude.{◌≡◌};
ghost use Rattle.gyroid.specs.Turn.{reducible, beyond, symmetric, turned};
ghost use Rattle.gyroid.specs.FunctionsInUse.{reduced, horner, circle_at, turn};

use crate::{Circle, Gyroid};
use interval::Interval;
use interval::floor::{modulo_four, quarter_number};
use interval::nearest::whole;

fn reducible(t: Interval) -> bool
    ensures { result ≡ reducible t }
{
    (-Gyroid::LARGEST_TURN < t.lo)
        & (t.lo < Gyroid::LARGEST_TURN)
        & (-Gyroid::LARGEST_TURN < t.hi)
        & (t.hi < Gyroid::LARGEST_TURN)
}

// The angle that is left of a turn once q quarters are taken off.
#[tactic(auto, unfolding(crate::specs::Turn::reduced))]
fn reduced(t: Interval, q: i64, two_pi: Interval) -> Interval
    ensures { result ≡ reduced t q two_pi }
{
    let quarters = Interval::point(whole(q)) * Interval::point(0.25);
    (t - quarters) * two_pi
}

fn beyond(u: Interval) -> bool
    ensures { result ≡ beyond u }
{
    (u.lo < -0.8) | (0.8 < u.hi)
}

// From the negative of x to x.
pub fn symmetric(x: f64) -> Interval
    ensures { result ≡ symmetric x }
{
    Interval::new(-x, x)
}

// Horner's rule in both series of nine terms side by side, so that neither waits for the other. By index: over `iter().rev()` it was proved, but
// then no proof names the operations, and the kept wrong program is refused by no fact.
#[tactic(auto, unfolding(crate::specs::Turn::horner))]
fn series(sine: &[Interval; 9], cosine: &[Interval; 9], x: Interval) -> Circle
    ensures { result ≡ record { sine = horner sine.now x 8; cosine = horner cosine.now x 8 } }
{
    let mut s = sine[8];
    let mut c = cosine[8];
    for i in 0..8 {
        s = s * x + sine[7 - i];
        c = c * x + cosine[7 - i];
    }
    Circle { sine: s, cosine: c }
}

impl Circle {
    // Turned by m quarters, where m is document 01's number "q mod 4": an enum of four would say the same numbers over again.
    #[tactic(auto, unfolding(crate::specs::Turn::turned))]
    fn turned(self, m: u64) -> Circle
        ensures { result ≡ turned m self }
    {
        match m {
            0 => self,
            1 => Circle {
                sine: self.cosine,
                cosine: -self.sine,
            },
            2 => Circle {
                sine: -self.sine,
                cosine: -self.cosine,
            },
            _ => Circle {
                sine: -self.cosine,
                cosine: self.sine,
            },
        }
    }
}

impl Gyroid {
    #[tactic(auto, unfolding(crate::specs::Turn::circle_at, crate::specs::Turn::sine_at, crate::specs::Turn::cosine_at))]
    fn circle(&self, u: Interval) -> Circle
        ensures { result ≡ circle_at self.now u }
    {
        let s = series(&self.sine, &self.cosine, u.square());
        Circle {
            sine: s.sine * u + symmetric(self.tail_sine),
            cosine: s.cosine + symmetric(self.tail_cosine),
        }
    }

    pub fn turn(&self, t: Interval) -> Option<Circle>
        ensures { result ≡ turn self.now t }
    {
        if !reducible(t) {
            return None;
        }
        let q = quarter_number(t.mid());
        let u = reduced(t, q, self.two_pi);
        if beyond(u) {
            return None;
        }
        Some(self.circle(u).turned(modulo_four(q)))
    }
}
