// Whole-number vectors of three: the anchors, their difference, the corners of a box. The axes are written out: by `from_fn` the check does
// not find the equation of `least_corner`, and a difference or a product of three is no plainer another way.
ghost use Rattle.std.specs.Prelude.{◌≡◌};
ghost use Rattle.grade.specs.Grade.{minus, dot};
ghost use Rattle.grade.specs.Exact.{least_end, least_corner};
ghost use Rattle.grade.specs.Fits.{Within3};

#[tactic(auto, using(crate::proofs::Sizes::difference_is), unfolding(crate::specs::Grade::minus))]
pub fn minus(a: [i64; 3], b: [i64; 3]) -> [i64; 3]
    requires { Within3 1048576 a × Within3 1048576 b }
    ensures { result ≡ minus a b }
{
    [a[0] - b[0], a[1] - b[1], a[2] - b[2]]
}

#[tactic(auto, using(crate::proofs::Sizes::times_fit, crate::proofs::Sizes::two_fit, crate::proofs::Sizes::three_fit, crate::proofs::Sizes::dot_is))]
pub fn dot(a: [i64; 3], b: [i64; 3]) -> i64
    requires { Within3 2097152 a × Within3 2097152 b }
    ensures { result ≡ dot a b }
{
    a[0] * b[0] + a[1] * b[1] + a[2] * b[2]
}

fn least_end(d: i64, lo: i64, hi: i64) -> i64
    ensures { result ≡ least_end d lo hi }
{
    if 0 < d { lo } else { hi }
}

// The corner of a box where the product with d is least.
pub fn least_corner(d: [i64; 3], lo: [i64; 3], hi: [i64; 3]) -> [i64; 3]
    ensures { result ≡ least_corner d lo hi }
{
    let x = least_end(d[0], lo[0], hi[0]);
    let y = least_end(d[1], lo[1], hi[1]);
    let z = least_end(d[2], lo[2], hi[2]);
    [x, y, z]
}
