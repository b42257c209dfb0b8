// `jet` and `affine_jet`: the surface's value and gradient at a point, and the same less the level's affine extension.
ghost use Rattle.std.specs.Prelude.{◌≡◌};
ghost use Rattle.gyroid.specs.InUse.{waves, gradient_at, jet, minus, affine_jet};
ghost use Rattle.gyroid.specs.FunctionsInUse.{value_at, entry_at, less};

use crate::{Circle, Gyroid, Jet, Surface, Waves};
use interval::Interval;

#[tactic(auto, unfolding(crate::specs::Jet::value_at))]
#[inline(always)]
pub fn value_at(surface: Surface, w: &Waves) -> Interval
    ensures { result ≡ value_at surface w.now }
{
    match surface {
        Surface::Network => w.x.sine * w.y.cosine + w.y.sine * w.z.cosine + w.z.sine * w.x.cosine,
        Surface::Primitive => w.x.cosine + w.y.cosine + w.z.cosine,
    }
}

// The gradient's entry on an axis, from the axis' own sine and cosine, the cosine of the axis after it and the sine of the one before.
#[tactic(auto, unfolding(crate::specs::Jet::entry_at))]
#[inline(always)]
fn entry_at(
    surface: Surface,
    own: Circle,
    after: Interval,
    before: Interval,
    k: Interval,
) -> Interval
    ensures { result ≡ entry_at surface own after before k }
{
    match surface {
        Surface::Network => (own.cosine * after - before * own.sine) * k,
        Surface::Primitive => -own.sine * k,
    }
}

#[tactic(auto, unfolding(crate::specs::Jet::gradient_at))]
#[inline(always)]
pub fn gradient_at(surface: Surface, w: &Waves, k: Interval) -> [Interval; 3]
    ensures { result ≡ gradient_at surface w.now k }
{
    let x = entry_at(surface, w.x, w.y.cosine, w.z.sine, k);
    let y = entry_at(surface, w.y, w.z.cosine, w.x.sine, k);
    let z = entry_at(surface, w.z, w.x.cosine, w.y.sine, k);
    [x, y, z]
}

// Axis by axis: of two arrays an iterator is no plainer.
#[tactic(auto, unfolding(crate::specs::Jet::minus))]
#[inline(always)]
pub fn minus(a: [Interval; 3], b: [Interval; 3]) -> [Interval; 3]
    ensures { result ≡ minus a b }
{
    [a[0] - b[0], a[1] - b[1], a[2] - b[2]]
}

impl Jet {
    #[tactic(auto, unfolding(crate::specs::Jet::less))]
    fn less(self, level: Interval, slope: [Interval; 3]) -> Jet
        ensures { result ≡ less self level slope }
    {
        let gradient = self.gradient;
        Jet {
            value: self.value - level,
            gradient: minus(gradient, slope),
        }
    }
}

impl Gyroid {
    #[tactic(auto, unfolding(crate::specs::Jet::waves))]
    pub fn waves(&self, p: [Interval; 3]) -> Option<Waves>
        ensures { result ≡ waves self.now p }
    {
        let k = self.turns;
        let x = self.turn(p[0] * k)?;
        let y = self.turn(p[1] * k)?;
        let z = self.turn(p[2] * k)?;
        Some(Waves { x, y, z })
    }

    #[tactic(auto, unfolding(crate::specs::Jet::jet))]
    pub fn jet(&self, p: [Interval; 3]) -> Option<Jet>
        ensures { result ≡ jet self.now p }
    {
        let w = self.waves(p)?;
        Some(Jet {
            value: value_at(self.surface, &w),
            gradient: gradient_at(self.surface, &w, self.wave),
        })
    }

    #[tactic(auto, unfolding(crate::specs::Jet::affine_jet))]
    pub fn affine_jet(&self, p: [Interval; 3]) -> Option<Jet>
        ensures { result ≡ affine_jet self.now p }
    {
        let jet = self.jet(p)?;
        Some(jet.less(self.intervals.affine(p), self.intervals.gradient()))
    }
}
