// Program `cells` from the bytes that it reads to the bytes that it prints.
ghost use Rattle.std.specs.Prelude.{◌≡◌, ◌+◌, ◌≤◌, length, ok_or, IfOk, IfErr};
ghost use Rattle.std.proofs.lemmas.List.Edits.{sets};
ghost use Rattle.limits.specs.Refusals as refusals;
ghost use Rattle.limits.specs.declared.refusals.Refusal.TheVariants.{Line};
ghost use Rattle.text.specs.Line.{line_of};
ghost use Rattle.text.specs.Listing.{refused_text, Front};
ghost use Rattle.text.specs.Cells.{three_from, described, number_of, table_of, cells_text};

use crate::parse::parse;
use crate::print::{put_listing, put_refused};
use grade::Grade;
use gyroid::{Description, Frame};
use limits::refusals::Refusal;
use walk::TieRule;
use walk::calls::walk;

// Three numbers of a line, from a place on. Here and below they go by their places, as in the definitions: `line_of` gives a list, `at ns i` its entry.
fn three_from(numbers: [i64; 17], at: usize) -> [i64; 3]
    requires { at + 3 ≤ 17 }
    ensures { result ≡ three_from numbers at }
{
    [numbers[at], numbers[at + 1], numbers[at + 2]]
}

// What a line describes: a network in the part frame.
fn described(numbers: [i64; 17]) -> Description
    ensures { result ≡ described numbers }
{
    Description {
        period: numbers[0],
        kind: 0,
        level: Grade {
            kind: numbers[1],
            from: three_from(numbers, 2),
            to: three_from(numbers, 5),
            start: numbers[8],
            end: numbers[9],
        },
        frame: Frame {
            w: 1,
            x: 0,
            y: 0,
            z: 0,
            translation: [0; 3],
        },
    }
}

// The numbers of the line.
fn line(input: &[u8]) -> Result<[i64; 17], Refusal>
    ensures { result ≡ ok_or (line_of input.now) Line }
{
    parse(input).ok_or(Refusal::Line)
}

// The walk of a line's numbers, by the lowest-axis rule.
fn walk_line(numbers: [i64; 17], table: &mut [u8]) -> Result<(), Refusal>
    ensures answer { refusals.number_of result ≡ number_of numbers (length table.old) }
    ensures left { table.new ≡ table_of numbers table.old }
{
    walk(
        described(numbers),
        three_from(numbers, 10),
        three_from(numbers, 13),
        numbers[16],
        TieRule::LowestAxis,
        table,
    )
}

// The listing of what the line describes; `out` stays as it was where there is none.
fn listed(input: &[u8], out: &mut [u8; 131072]) -> Result<usize, Refusal>
    ensures text { IfOk result (λ _. out.new ≡ sets out.old 0 (cells_text input.now)) }
    ensures end { IfOk result (λ n. n ≡ length (cells_text input.now)) }
    ensures front { IfOk result (λ n. Front n out.new) }
    ensures refused { IfErr result (λ r. refused_text (refusals.number r) ≡ cells_text input.now) }
    ensures untouched { IfErr result (λ _. out.new ≡ out.old) }
{
    let numbers = line(input)?;
    let mut table = [0; 65536];
    walk_line(numbers, &mut table)?;
    Ok(put_listing(&table, out))
}

// Puts what is printed of an input at the front of `out`, and answers its length. The bytes behind it stay as they were.
pub fn cells(input: &[u8], out: &mut [u8; 131072]) -> usize
    ensures text { out.new ≡ sets out.old 0 (cells_text input.now) }
    ensures end { result ≡ length (cells_text input.now) }
    ensures front { Front result out.new }
{
    match listed(input, out) {
        Ok(end) => end,
        Err(why) => put_refused(out, u32::from(why)),
    }
}
