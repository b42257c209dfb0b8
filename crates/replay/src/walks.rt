// The list of walks over the original's box state or document 02's. A case begins with 28 words, whole numbers as 2^62 more than
// themselves: the 18 entries of a description, a box, the depth, the tie rule, the bytes of the table, the status. The bytes that the walk
// leaves in the table follow, then zeros up to a whole word.
use crate::lent::{LONGEST, length_of, read_padded, set_unwritten};
use crate::words::{each, first_words, narrow, offset};
use lists::Stop;
use std::io::Read;

// Whether the walk of the next case returns its status and leaves its bytes in the table.
pub(crate) fn next<R: Read>(list: &mut R) -> Result<Option<bool>, Stop> {
    let words: [u64; 28] = first_words(list)?;
    let [.., depth, rule, n, wanted] = words;
    let n = length_of(n)?;
    let mut bytes = [0u8; LONGEST];
    read_padded(list, &mut bytes, n)?;
    let entries: [i64; 24] = each(&words, 0, offset);
    let mut table = [0u8; LONGEST];
    set_unwritten(&mut table[..n]);
    let status = capi::gyroid_walk(
        &entries[..18],
        &entries[18..24],
        offset(depth),
        narrow(rule),
        &mut table[..n],
    );
    Ok(Some(i64::from(status) == offset(wanted) && table[..n] == bytes[..n]))
}
