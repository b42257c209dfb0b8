// What an exported call leaves in the slice lent for its values, and the status that it returns: 0 for values, 100 for nothing found,
// else a refusal's number.
ghost use Rattle.std.specs.Prelude.{◌≡◌, ℕ, ◌+◌, ◌*◌, ◌≤◌, ◌<◌, pos, List, [], ◌∷◌, length, IfOk, IfSome};
ghost use Rattle.limits.specs.Refusals.{number_of};
ghost use Rattle.grade.specs.Said.{found};
ghost use Rattle.grade.specs.Calls.{three};
ghost use Rattle.grade.specs.Pieces.{piece_number};
ghost use Rattle.gyroid.specs.Residual as residuals;
ghost use Rattle.calls.specs.Calls as calls;
ghost use Rattle.capi.specs.Lent.{status, written, over};
ghost use Rattle.capi.specs.Exports.{bit};

use calls::Derivatives;
use grade::{Bounds, Piece, Planes};
use gyroid::{Jet, State};
use interval::Interval;
use limits::refusals::Refusal;

// Nothing is found.
const NONE: u32 = 100;

// What a call finds, as numbers that are left at the front of a slice.
pub trait Values: Copy {
    type Number;

    // The numbers.
    ghost values: { Self → List Self.Number };

    // Whether they have room in a slice of this length.
    ghost can_put: { Self → ℕ → Type 0 };

    fn put(self, out: &mut [Self::Number]) -> u32
        requires { can_put self (length out.old) }
        ensures status { result ≡ status (found (values self)) }
        ensures left { out.new ≡ over out.old 0 (values self) };
}

impl<T: Values> Values for Option<T> {
    type Number = T::Number;

    ghost values = { calls.any T.values };

    ghost can_put = { λ found room. IfSome found (λ v. T.can_put v room) };

    fn put(self, out: &mut [T::Number]) -> u32 {
        match self {
            Some(v) => v.put(out),
            None => NONE,
        }
    }
}

// 1 or 0.
impl Values for bool {
    type Number = i64;

    ghost values = { λ b. bit b ∷ [] };

    ghost can_put = { λ _ room. 1 ≤ room };

    fn put(self, out: &mut [i64]) -> u32 {
        out[0] = i64::from(self);
        0
    }
}

// The walk's number of it.
impl Values for State {
    type Number = i64;

    ghost values = { λ s. pos (residuals.state_number s) ∷ [] };

    ghost can_put = { λ _ room. 1 ≤ room };

    fn put(self, out: &mut [i64]) -> u32 {
        out[0] = self as i64;
        0
    }
}

impl Values for Piece {
    type Number = i64;

    ghost values = { λ p. pos (piece_number p) ∷ [] };

    ghost can_put = { λ _ room. 1 ≤ room };

    fn put(self, out: &mut [i64]) -> u32 {
        out[0] = self as i64;
        0
    }
}

// The axis, then the positions of the anchors.
impl Values for Planes {
    type Number = i64;

    ghost values = { calls.plane_values };

    ghost can_put = { λ p room. (p.axis < 3) × (3 ≤ room) };

    fn put(self, out: &mut [i64]) -> u32 {
        out[0] = self.axis as i64;
        out[1] = self.from;
        out[2] = self.to;
        0
    }
}

// Two numerators and their denominator.
impl Values for Bounds {
    type Number = i64;

    ghost values = { three };

    ghost can_put = { λ _ room. 3 ≤ room };

    fn put(self, out: &mut [i64]) -> u32 {
        out[0] = self.low;
        out[1] = self.high;
        out[2] = self.over;
        0
    }
}

impl Values for f64 {
    type Number = f64;

    ghost values = { calls.one };

    ghost can_put = { λ _ room. 1 ≤ room };

    fn put(self, out: &mut [f64]) -> u32 {
        out[0] = self;
        0
    }
}

// The two ends.
impl Values for Interval {
    type Number = f64;

    ghost values = { calls.ends };

    ghost can_put = { λ _ room. 2 ≤ room };

    fn put(self, out: &mut [f64]) -> u32 {
        out[0] = self.lo;
        out[1] = self.hi;
        0
    }
}

// The ends of intervals, one after the other from place `at` on.
fn put_rows(vs: &[Interval], at: usize, out: &mut [f64])
    requires { at + 2 * length vs.now ≤ length out.old }
    ensures { out.new ≡ over out.old at (calls.rows vs.now) }
{
    for (k, v) in vs.iter().enumerate() {
        let place = at + 2 * k;
        out[place] = v.lo;
        out[place + 1] = v.hi;
    }
}

// The value, then the gradient.
impl Values for Jet {
    type Number = f64;

    ghost values = { calls.jet_values };

    ghost can_put = { λ _ room. 8 ≤ room };

    fn put(self, out: &mut [f64]) -> u32 {
        put_rows(&[self.value], 0, out);
        put_rows(&self.gradient, 2, out);
        0
    }
}

// The gradient, then the Hessian row by row.
impl Values for Derivatives {
    type Number = f64;

    ghost values = { calls.derivatives_values };

    ghost can_put = { λ _ room. 24 ≤ room };

    fn put(self, out: &mut [f64]) -> u32 {
        put_rows(&self.gradient, 0, out);
        put_rows(&self.hessian, 6, out);
        0
    }
}

// The status of an answer, whose values are left in the slice.
pub fn answer<T: Values>(said: Result<T, Refusal>, out: &mut [T::Number]) -> u32
    requires { IfOk said (λ v. T.can_put v (length out.old)) }
    ensures status { result ≡ status (calls.said T.values said) }
    ensures left { out.new ≡ written out.old (calls.said T.values said) }
{
    match said {
        Ok(found) => found.put(out),
        Err(why) => why.into(),
    }
}

// The status of a call that leaves its values itself.
pub fn done(said: Result<(), Refusal>) -> u32
    ensures { result ≡ number_of said }
{
    match said {
        Ok(()) => 0,
        Err(why) => why.into(),
    }
}
