// The list of answers to the public calls, the original's or document 02's. A case begins with a word of bytes: the call, how many words
// it takes, how many words answer it, the status, the piece. The words follow: doubles by their bits, whole numbers as 2^62 more than
// themselves. Call 0 takes the 18 entries of the description that the cases after it are about.
use crate::words::{each, float_of, offset, same};
use lists::{Stop, begin, fill};
use std::io::Read;

// The words that a call takes at most, a triangle's corners.
const MOST_GIVEN: usize = 18;

// Those that answer it at most, derivatives.
const MOST_ANSWERS: usize = 24;

// Both.
const MOST: usize = 42;

// What the list says of a call: its status, and the words of what it answers.
#[derive(Clone, Copy)]
struct Wanted<'a> {
    status: u32,
    words: &'a [u64],
}

impl Wanted<'_> {
    // Whether the call answers so: its status, and each word alike with the value that it leaves at that place of what is lent.
    fn is_answer<T: Copy, const M: usize, A: Fn(u64, T) -> bool, F: FnOnce(&mut [T]) -> u32>(
        self,
        lent: [T; M],
        alike: A,
        call: F,
    ) -> bool
        requires alike { A.IsAlwaysCallable alike }
        requires call { F.IsAlwaysCallable call }
    {
        let mut values = lent;
        call(&mut values) == self.status
            && self.words.len() <= M
            && self.words.iter().zip(&values).all(|(n, x)| alike(*n, *x))
    }

    // Of whole numbers.
    fn is_whole<F: FnOnce(&mut [i64]) -> u32>(self, call: F) -> bool
        requires { F.IsAlwaysCallable call }
    {
        self.is_answer([0; 3], |n, x| offset(n) == x, call)
    }

    // Of doubles.
    fn is_real<F: FnOnce(&mut [f64]) -> u32>(self, call: F) -> bool
        requires { F.IsAlwaysCallable call }
    {
        self.is_answer([0.0; MOST_ANSWERS], |n, x| same(float_of(n), x), call)
    }
}

// Whether the call of this number answers as the list says. The list's own byte names the call, and each number stands here alone: an enum of
// the calls would say the same numbers over again.
fn answers(call: u8, piece: u32, d: &[i64; 18], words: &[u64; MOST], wanted: Wanted) -> bool {
    let whole: [i64; 6] = each(words, 0, offset);
    let real: [f64; MOST_GIVEN] = each(words, 0.0, float_of);
    match call {
        1 => wanted.is_whole(|out| capi::gyroid_graded(d, out)),
        2 => wanted.is_whole(|out| capi::gyroid_saturated(d, out)),
        3 => wanted.is_whole(|out| capi::gyroid_planes(d, out)),
        4 => wanted.is_real(|out| capi::gyroid_curvature(d, out)),
        5 => wanted.is_real(|out| capi::gyroid_lipschitz(d, out)),
        6 => wanted.is_whole(|out| capi::gyroid_grade_range(d, &whole, out)),
        7 => wanted.is_whole(|out| capi::gyroid_level_piece(d, &whole, out)),
        8 => wanted.is_real(|out| capi::gyroid_jet(d, &real[..6], out)),
        9 => wanted.is_real(|out| capi::gyroid_affine_jet(d, &real[..6], out)),
        10 => wanted.is_real(|out| capi::gyroid_derivatives(d, &real[..6], piece, out)),
        11 => wanted.is_real(|out| capi::gyroid_residual(d, &real[..6], out)),
        12 => wanted.is_real(|out| capi::gyroid_affine_residual(d, &real[..6], out)),
        13 => wanted.is_whole(|out| capi::gyroid_box_state(d, &real[..6], out)),
        14 => wanted.is_real(|out| capi::gyroid_facet_residual(d, &real, out)),
        15 => wanted.is_real(|out| capi::gyroid_fast(d, &real[..3], out)),
        _ => wanted.is_real(|out| capi::gyroid_fast_distance(d, &real[..3], out)),
    }
}

// Whether the call of the next case answers as it says; None where the case is a description, which is then kept.
pub(crate) fn next<R: Read>(
    list: &mut R,
    description: &mut [i64; 18],
) -> Result<Option<bool>, Stop> {
    let mut head = [0u8; 8];
    begin(list, &mut head)?;
    let [call, given, count, status, piece, ..] = head;
    let given = usize::from(given);
    let count = usize::from(count);
    if given > MOST_GIVEN || count > MOST_ANSWERS {
        return Err(Stop::Broken);
    }
    let mut bytes = [[0u8; 8]; MOST];
    fill(list, bytes[..given + count].as_flattened_mut())?;
    let words: [u64; MOST] = each(&bytes, 0, u64::from_le_bytes);
    if call == 0 {
        *description = each(&words, 0, offset);
        return Ok(None);
    }
    let wanted = Wanted {
        status: u32::from(status),
        words: &words[given..given + count],
    };
    Ok(Some(answers(call, u32::from(piece), description, &words, wanted)))
}
