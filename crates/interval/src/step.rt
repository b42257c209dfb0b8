// The next double above and the next below, for every double.
ghost use Rattle.std.specs.Prelude.{◌≡◌};
ghost use Rattle.interval.specs.Step.{next_up, next_down};

// Below zero the pattern falls toward zero. Any other finite double goes away from it, whichever sign a zero has. The infinity
// above and a NaN stay. (`f64::next_up` makes more tests: with it a chain of sums and products takes 5% more instructions.)
pub fn next_up(x: f64) -> f64
    ensures { result ≡ next_up x }
{
    if x < 0.0 {
        return f64::from_bits(x.to_bits() - 1);
    }
    if x <= f64::MAX {
        return f64::from_bits(x.to_bits() % 0x8000_0000_0000_0000 + 1);
    }
    x
}

#[tactic(auto, unfolding(crate::specs::Step::next_down))]
pub fn next_down(x: f64) -> f64
    ensures { result ≡ next_down x }
{
    -next_up(-x)
}
