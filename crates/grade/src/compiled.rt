// The compiled grade: a constant, or the linear level's numbers.
ghost use Rattle.std.specs.Prelude.{◌≡◌};
ghost use Rattle.grade.specs.declared.GradeDef.{GradeDef};
ghost use Rattle.grade.specs.Exact.{compiled, range, exact_piece};
ghost use Rattle.grade.specs.Fits.{Within3, InLimits, DefFits};

use crate::{Bounds, Grade, GradeDef, Linear, Piece};

impl GradeDef {
    pub fn constant(level: i64) -> GradeDef
        ensures { result ≡ GradeDef.Constant level }
    {
        GradeDef::Constant(level)
    }

    // A grade that no refusal stopped. Equal start and end become a constant.
    #[tactic(auto, unfolding(crate::specs::Exact::compiled))]
    pub fn compile(g: Grade) -> GradeDef
        requires { InLimits g }
        ensures { result ≡ compiled g }
    {
        if g.is_linear() & (g.start != g.end) {
            return GradeDef::Linear(Linear::new(g.from, g.to, g.start, g.end));
        }
        GradeDef::constant(g.start)
    }

    #[tactic(auto, unfolding(crate::specs::Exact::range))]
    pub fn range(&self, lo: [i64; 3], hi: [i64; 3]) -> Bounds
        requires { DefFits self.now × (Within3 1048576 lo × Within3 1048576 hi) }
        ensures { result ≡ range self.now lo hi }
    {
        match self {
            GradeDef::Constant(level) => Bounds {
                low: *level,
                high: *level,
                over: 1,
            },
            GradeDef::Linear(linear) => linear.range(lo, hi),
        }
    }

    #[tactic(auto, unfolding(crate::specs::Exact::exact_piece))]
    pub fn exact_piece(&self, lo: [i64; 3], hi: [i64; 3]) -> Option<Piece>
        requires { DefFits self.now × (Within3 1048576 lo × Within3 1048576 hi) }
        ensures { result ≡ exact_piece self.now lo hi }
    {
        match self {
            GradeDef::Constant(_) => Some(Piece::Start),
            GradeDef::Linear(linear) => linear.exact_piece(lo, hi),
        }
    }
}
