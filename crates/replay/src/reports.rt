// The list of layer reports, worked out from document 02's words. A case begins with five words, whole numbers as 2^62 more than themselves:
// low, high, the bytes of the table, those of the report, the status. The table's bytes follow, then zeros up to a whole word; then the
// bytes that the call leaves in the report, and such zeros.
use crate::lent::{LONGEST, length_of, read_padded, set_unwritten};
use crate::words::{first_words, offset};
use lists::Stop;
use std::io::Read;

// Whether the call of the next case returns its status and leaves its bytes in the report.
pub(crate) fn next<R: Read>(list: &mut R) -> Result<Option<bool>, Stop> {
    let [low, high, n, m, wanted]: [u64; 5] = first_words(list)?;
    let n = length_of(n)?;
    let m = length_of(m)?;
    let mut table = [0u8; LONGEST];
    let mut bytes = [0u8; LONGEST];
    read_padded(list, &mut table, n)?;
    read_padded(list, &mut bytes, m)?;
    let mut report = [0u8; LONGEST];
    set_unwritten(&mut report[..m]);
    let status = capi::gyroid_layers(&table[..n], offset(low), offset(high), &mut report[..m]);
    Ok(Some(i64::from(status) == offset(wanted) && report[..m] == bytes[..m]))
}
