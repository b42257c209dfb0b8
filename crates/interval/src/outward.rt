// The ends of a product or a quotient, stepped outward. Where a few tests tell the ends' signs, both steps are one sum on the bit patterns:
// the walk spends most of its time here. An exact end's pattern is put back by adding or taking `exact` itself, which needs no branch.
ghost use Rattle.std.specs.Prelude.{◌≡◌, true, false};
ghost use Rattle.std.specs.Float.Ieee as Ieee;
ghost use Rattle.interval.specs.Step.{b64};
ghost use Rattle.interval.specs.Interval.{least, greatest, least4, greatest4, outward, Narrow, stepped, around};

use crate::Interval;
use crate::step::{next_down, next_up};

// An end as it was rounded, and whether it stays as it is.
#[derive(Clone, Copy, Debug, PartialEq)]
pub struct End {
    pub value: f64,
    pub exact: bool,
}

impl End {
    // The end of a product or a quotient: stepped always.
    pub fn inexact(value: f64) -> End
        ensures { result ≡ record { value = value; exact = false } }
    {
        End {
            value,
            exact: false,
        }
    }
}

// The lesser and the greater of two, of two zeros the first: `f64::min` and `f64::max` may answer either zero, and pass over a NaN.
pub fn smaller(a: f64, b: f64) -> f64
    ensures { result ≡ least a b }
{
    if b < a { b } else { a }
}

pub fn larger(a: f64, b: f64) -> f64
    ensures { result ≡ greatest a b }
{
    if a < b { b } else { a }
}

// Both ends above zero, the high one finite; an exact end stays.
pub fn above(low: End, high: End) -> Interval
    requires { (Ieee.lt (b64 0) low.value ≡ true) × (Ieee.lt (b64 0) high.value ≡ true) × (Ieee.le high.value (b64 0x7fef_ffff_ffff_ffff) ≡ true) }
    ensures { result ≡ stepped Narrow low.value low.exact high.value high.exact }
{
    Interval {
        lo: f64::from_bits(low.value.to_bits() - 1 + u64::from(low.exact)),
        hi: f64::from_bits(high.value.to_bits() + 1 - u64::from(high.exact)),
    }
}

// Both ends below zero, the low one finite; an exact end stays.
pub fn below(low: End, high: End) -> Interval
    requires { (Ieee.lt low.value (b64 0) ≡ true) × (Ieee.lt high.value (b64 0) ≡ true) × (Ieee.le (b64 0xffef_ffff_ffff_ffff) low.value ≡ true) }
    ensures { result ≡ stepped Narrow low.value low.exact high.value high.exact }
{
    Interval {
        lo: f64::from_bits(low.value.to_bits() + 1 - u64::from(low.exact)),
        hi: f64::from_bits(high.value.to_bits() - 1 + u64::from(high.exact)),
    }
}

// Zero between finite ends.
fn across(low: f64, high: f64) -> Interval
    requires { (Ieee.lt (b64 0) low ≡ false) × (Ieee.le (b64 0xffef_ffff_ffff_ffff) low ≡ true) × (Ieee.lt high (b64 0) ≡ false) × (Ieee.le high (b64 0x7fef_ffff_ffff_ffff) ≡ true) }
    ensures { result ≡ outward low high }
{
    Interval {
        lo: f64::from_bits(low.to_bits() % 0x8000_0000_0000_0000 + 0x8000_0000_0000_0001),
        hi: f64::from_bits(high.to_bits() % 0x8000_0000_0000_0000 + 1),
    }
}

// Each end by itself.
pub fn apart(low: f64, high: f64) -> Interval
    ensures { result ≡ outward low high }
{
    Interval {
        lo: next_down(low),
        hi: next_up(high),
    }
}

fn least_of(a: f64, b: f64, c: f64, d: f64) -> f64
    ensures { result ≡ least4 a b c d }
{
    smaller(smaller(a, b), smaller(c, d))
}

fn greatest_of(a: f64, b: f64, c: f64, d: f64) -> f64
    ensures { result ≡ greatest4 a b c d }
{
    larger(larger(a, b), larger(c, d))
}

// The least and the greatest of four, stepped outward. The low end is tested before the high end is formed, which lets the compiler
// keep the two apart.
#[tactic(auto, using(crate::proofs::FourCode::from_lowest))]
pub fn around(a: f64, b: f64, c: f64, d: f64) -> Interval
    ensures { result ≡ around a b c d }
{
    let low = End::inexact(least_of(a, b, c, d));
    if 0.0 < low.value {
        let high = End::inexact(greatest_of(a, b, c, d));
        if high.value <= f64::MAX {
            return above(low, high);
        }
        return apart(low.value, high.value);
    }
    let high = End::inexact(greatest_of(a, b, c, d));
    if -f64::MAX <= low.value {
        if high.value < 0.0 {
            return below(low, high);
        }
        if high.value <= f64::MAX {
            return across(low.value, high.value);
        }
    }
    apart(low.value, high.value)
}
