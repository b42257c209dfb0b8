// Which coordinates document 01 admits, one by one, as the ends of a side and as a vector.
ghost use Rattle.std.specs.Prelude.{◌≡◌};
ghost use Rattle.limits.specs.Ticks.{tick, side, ticks, above};

pub fn tick(x: i64) -> bool
    ensures { result ≡ tick x }
{
    (-1048576..=1048576).contains(&x)
}

pub fn side(low: i64, high: i64) -> bool
    ensures { result ≡ side low high }
{
    tick(low) & tick(high) & (low < high)
}

pub fn ticks(v: [i64; 3]) -> bool
    ensures { result ≡ ticks v }
{
    v.iter().all(|x| tick(*x))
}

// Whether a low is above its high. The three axes are written out: as `any` over the axes the equation with `above` was not found.
pub fn above(lo: [i64; 3], hi: [i64; 3]) -> bool
    ensures { result ≡ above lo hi }
{
    (hi[0] < lo[0]) | (hi[1] < lo[1]) | (hi[2] < lo[2])
}
