// The grade in doubles, in the original's order of operations: tentative, with no claim but its equation.
ghost use Rattle.std.specs.Prelude.{◌≡◌};
ghost use Rattle.exact.specs.Within.{Within};
ghost use Rattle.grade.specs.Fits.{LinearFits, DefFits};
ghost use Rattle.grade.specs.Fast.{near, fast_along, linear_fast, fast};

use crate::{GradeDef, Linear};
use interval::nearest::nearest;

// Ticks in millimetres, and level counts as levels.
fn near(z: i64) -> f64
    requires { Within 2097152 z }
    ensures { result ≡ near z }
{
    nearest(z, 1024)
}

fn fast_along(x: f64, from: i64, d: i64) -> f64
    requires { Within 2097152 from × Within 2097152 d }
    ensures { result ≡ fast_along x from d }
{
    (x - near(from)) * near(d)
}

impl Linear {
    // The axes are written out: by `from_fn` the check does not find the equation.
    #[tactic(auto, unfolding(crate::specs::Fast::linear_fast))]
    pub fn fast(&self, p: [f64; 3]) -> f64
        requires { LinearFits self.now }
        ensures { result ≡ linear_fast self.now p }
    {
        let x = fast_along(p[0], self.from[0], self.direction[0]);
        let y = fast_along(p[1], self.from[1], self.direction[1]);
        let z = fast_along(p[2], self.from[2], self.direction[2]);
        let t = ((x + y + z) / nearest(self.length_sq, 1048576)).clamp(0.0, 1.0);
        let start = near(self.start);
        start + t * (near(self.end) - start)
    }
}

impl GradeDef {
    #[tactic(auto, unfolding(crate::specs::Fast::fast))]
    pub fn fast(&self, p: [f64; 3]) -> f64
        requires { DefFits self.now }
        ensures { result ≡ fast self.now p }
    {
        match self {
            GradeDef::Constant(level) => near(*level),
            GradeDef::Linear(linear) => linear.fast(p),
        }
    }
}
