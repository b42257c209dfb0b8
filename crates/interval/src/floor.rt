// The floor of a double, the quarter number that rests on it, and its remainder by 4.
ghost use Rattle.std.specs.Prelude.{◌≡◌};
ghost use Rattle.interval.specs.Encloses.{Small};
ghost use Rattle.interval.specs.Floor.{floor, quarter_number, mod_four};

// Up to 2^53 in size: from there on every double is a whole number, and i64 ends at 2^63. (With `f64::floor` it takes twice as long.)
pub fn floor(y: f64) -> i64
    requires { Small 53 y }
    ensures { result ≡ floor y }
{
    let k = std::num::truncating_f64_to_i64(y);
    if y < std::num::nearest_i64_to_f64(k) {
        k - 1
    } else {
        k
    }
}

// The quarter number of a turn t. Document 01 refuses points beyond 2^40, and a period is 1 tick at least, so no turn passes 2^50.
#[tactic(auto, using(crate::proofs::QuarterCode::quarter_small), unfolding(crate::specs::Floor::quarter_number))]
pub fn quarter_number(t: f64) -> i64
    requires { Small 50 t }
    ensures { result ≡ quarter_number t }
{
    floor(t * 4.0 + 0.5)
}

// q mod 4, from 0 to 3, also below zero.
pub fn modulo_four(q: i64) -> u64
    ensures { result ≡ mod_four q }
{
    q.rem_euclid(4) as u64
}
