// Eight-byte words of a list: what a double, a whole number or an offset number stands for, and how a case's words are read.
ghost use Rattle.std.specs.Prelude.{◌^◌, ◌≤◌, unsigned_abs};

use lists::{Stop, begin};
use std::io::Read;

// The double with these bits; every NaN pattern is one NaN.
pub(crate) fn float_of(n: u64) -> f64 {
    let m = n % 0x8000_0000_0000_0000;
    if m > 0x7ff0_0000_0000_0000 {
        return f64::NAN;
    }
    f64::from_bits(n)
}

// n less 2^53, or 0 where that is beyond 2^53 in size.
pub(crate) fn number(n: u64) -> i64
    ensures { unsigned_abs result ≤ 2 ^ 53 }
{
    if n <= 0x40_0000_0000_0000 {
        return n as i64 - 0x20_0000_0000_0000;
    }
    0
}

// n less 2^62, or 0 from 2^63 on.
pub(crate) fn offset(n: u64) -> i64 {
    if n < 0x8000_0000_0000_0000 {
        return n as i64 - 0x4000_0000_0000_0000;
    }
    0
}

// n less 2^62, of a number below 2^32: 2^62 is a multiple of 2^32.
pub(crate) fn narrow(n: u64) -> u32 {
    (n % 0x1_0000_0000) as u32
}

// Zeros of either sign are alike, and so are all NaNs.
pub(crate) fn same(x: f64, y: f64) -> bool {
    if x.is_nan() { y.is_nan() } else { x == y }
}

// What the first N of the items are. By a loop: the library's `map` and `from_fn` of an array hold each element in an Option, and the list
// of calls then takes a third more time.
pub(crate) fn each<A: Copy, T: Copy, const N: usize, F: Fn(A) -> T>(
    items: &[A],
    start: T,
    of: F,
) -> [T; N]
    requires { F.IsAlwaysCallable of }
{
    let mut values = [start; N];
    for (value, item) in values.iter_mut().zip(items) {
        *value = of(*item);
    }
    values
}

// The N words that a case begins with.
pub(crate) fn first_words<R: Read, const N: usize>(list: &mut R) -> Result<[u64; N], Stop> {
    let mut bytes = [[0u8; 8]; N];
    begin(list, bytes.as_flattened_mut())?;
    Ok(each(&bytes, 0, u64::from_le_bytes))
}
