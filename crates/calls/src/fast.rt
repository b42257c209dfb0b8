// `fast_distance`: the residual over the Lipschitz bound in doubles, tentative, with no claim but its equation.
ghost use Rattle.std.specs.Prelude.{◌≡◌};
ghost use Rattle.interval.specs.Encloses.{Small};
ghost use Rattle.calls.specs.Fast.{fast_horner, fast_reduced, fast_circle, fast_turned, fast_turn, fast_value, fast_distance};
ghost use Rattle.calls.specs.Fits.{FastFits, Near};

use crate::FastCircle;
use grade::GradeDef;
use gyroid::{Gyroid, Surface};
use interval::Interval;
use interval::floor::{modulo_four, quarter_number};
use interval::nearest::whole;

#[tactic(auto, unfolding(crate::specs::Fast::fast_horner))]
fn fast_horner(c: [f64; 9], x: f64) -> f64
    ensures { result ≡ fast_horner c x }
{
    c.iter().rev().fold(0.0, |s, k| s * x + *k)
}

#[tactic(auto, unfolding(crate::specs::Fast::fast_reduced))]
fn fast_reduced(t: f64, q: i64) -> f64
    ensures { result ≡ fast_reduced t q }
{
    (t - whole(q) * 0.25) * Interval::TWO_PI.lo
}

#[tactic(auto, unfolding(crate::specs::Fast::fast_circle))]
fn fast_circle(u: f64) -> FastCircle
    ensures { result ≡ fast_circle u }
{
    let x = u * u;
    FastCircle {
        sine: fast_horner(Interval::sine_nearest(), x) * u,
        cosine: fast_horner(Interval::cosine_nearest(), x),
    }
}

// By "q mod 4", a number as in the definition: `modulo_four` gives none but 0 to 3.
#[tactic(auto, unfolding(crate::specs::Fast::fast_turned))]
fn fast_turned(m: u64, c: FastCircle) -> FastCircle
    ensures { result ≡ fast_turned m c }
{
    match m {
        0 => c,
        1 => FastCircle {
            sine: c.cosine,
            cosine: -c.sine,
        },
        2 => FastCircle {
            sine: -c.sine,
            cosine: -c.cosine,
        },
        _ => FastCircle {
            sine: -c.cosine,
            cosine: c.sine,
        },
    }
}

#[tactic(auto, unfolding(crate::specs::Fast::fast_turn))]
fn fast_turn(x: f64, turns: f64) -> FastCircle
    requires { Small 40 x × Small 10 turns }
    ensures { result ≡ fast_turn x turns }
{
    let t = x * turns;
    let q = quarter_number(t);
    let c = fast_circle(fast_reduced(t, q));
    fast_turned(modulo_four(q), c)
}

#[tactic(auto, unfolding(crate::specs::Fast::fast_value))]
fn fast_value(surface: Surface, x: FastCircle, y: FastCircle, z: FastCircle) -> f64
    ensures { result ≡ fast_value surface x y z }
{
    match surface {
        Surface::Network => x.sine * y.cosine + y.sine * z.cosine + z.sine * x.cosine,
        Surface::Primitive => x.cosine + y.cosine + z.cosine,
    }
}

#[tactic(auto, unfolding(crate::specs::Fast::fast_distance))]
pub fn fast_distance(leaf: &Gyroid, p: [f64; 3]) -> f64
    requires { FastFits leaf.now × Near p }
    ensures { result ≡ fast_distance leaf.now p }
{
    let k = leaf.fast_turns;
    let x = fast_turn(p[0], k);
    let y = fast_turn(p[1], k);
    let z = fast_turn(p[2], k);
    let value = fast_value(leaf.surface, x, y, z);
    match &leaf.grade {
        GradeDef::Constant(_) => (value - leaf.fast_level) / leaf.fast_lipschitz,
        GradeDef::Linear(_) => (value - leaf.grade.fast(p)) / leaf.fast_lipschitz,
    }
}
