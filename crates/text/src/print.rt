// The text that program `cells` prints, written into lent bytes.
ghost use Rattle.std.specs.Prelude.{◌≡◌, [], ◌∷◌, ◌+◌, ◌≤◌, ◌<◌, length};
ghost use Rattle.std.proofs.lemmas.List.Edits.{sets};
ghost use Rattle.table.specs.Read.{next_in, coordinate_in, record_in, chain};
ghost use Rattle.text.specs.Appended.{Appended, corner_in};
ghost use Rattle.text.specs.Decimal.{decimal, signed_decimal};
ghost use Rattle.text.specs.Listing.{spaced, refused_text, head_line, cell_line, cell_lines, listing, Front};

use table::Head;
use table::get::{coordinate_of, head_of, next_of, state_of};

// ---- a cell's record; a chain may name slots past the table's end, and zeros are read there
// The table and the slot stay two arguments: behind a struct's field the check does not know the array's length, on which the zeros stand.
// The three stay apart: one function that is given the reading as a closure passes on its contract too, and is no plainer.
fn next_slot(table: &[u8; 65536], slot: usize) -> usize
    ensures { result ≡ next_in table.now slot }
{
    if slot < 2048 {
        return next_of(table, slot);
    }
    0
}

fn state(table: &[u8; 65536], slot: usize) -> usize
    ensures { result ≡ (record_in table.now slot).state }
{
    if slot < 2048 {
        return state_of(table, slot);
    }
    0
}

fn coordinate(table: &[u8; 65536], slot: usize, i: usize) -> i64
    requires { i < 6 }
    ensures { result ≡ coordinate_in table.now slot i }
{
    if slot < 2048 {
        return coordinate_of(table, slot, i);
    }
    0
}

// A text in lent bytes: it ends before `at`. Each method writes behind it and leaves every other byte as it was. A model that shows the text alone
// would forget which bytes were lent, and so what they hold in the end.
#[derive(Drop)]
struct Text<'a> {
    out: &'a mut [u8; 131072],
    at: usize,
}

impl Text<'_> {
    fn byte(&mut self, b: u8)
        requires { self.old.at + 1 ≤ 131072 }
        ensures { Appended self.old (b ∷ []) self.new }
    {
        self.out[self.at] = b;
        self.at += 1;
    }

    fn bytes(&mut self, text: &[u8])
        requires { self.old.at + length text.now ≤ 131072 }
        ensures { Appended self.old text.now self.new }
    {
        let at = self.at;
        let end = at + text.len();
        let out = &mut self.out[..];
        out[at..end].copy_from_slice(text);
        self.at = end;
    }

    // The digits before the last, and then the last. They go straight behind the text: a buffer of digits, as Rattle's itoa has one, would be
    // copied, which is no plainer.
    #[tactic(auto, using(crate::proofs::DecimalLaws::length_digit, crate::proofs::DecimalLaws::length_digits))]
    fn decimal(&mut self, n: usize)
        requires { self.old.at + length (decimal n) ≤ 131072 }
        ensures { Appended self.old (decimal n) self.new }
    {
        if n < 10 {
            return self.byte(b'0' + n as u8);
        }
        self.decimal(n / 10);
        self.byte(b'0' + (n % 10) as u8);
    }

    fn signed(&mut self, x: i64)
        requires { self.old.at + length (signed_decimal x) ≤ 131072 }
        ensures { Appended self.old (signed_decimal x) self.new }
    {
        let size = x.unsigned_abs() as usize;
        if x < 0 {
            self.byte(b'-');
            return self.decimal(size);
        }
        self.decimal(size);
    }

    // A number behind another.
    #[tactic(auto, using(crate::proofs::AppendLaws::then_appended))]
    fn spaced(&mut self, n: usize)
        requires { self.old.at + length (spaced (decimal n)) ≤ 131072 }
        ensures { Appended self.old (spaced (decimal n)) self.new }
    {
        self.byte(b' ');
        self.decimal(n);
    }

    fn coordinate(&mut self, table: &[u8; 65536], slot: usize, i: usize)
        requires i_bound { i < 6 }
        requires room { self.old.at + length (spaced (signed_decimal (coordinate_in table.now slot i))) ≤ 131072 }
        ensures { Appended self.old (spaced (signed_decimal (coordinate_in table.now slot i))) self.new }
    {
        self.byte(b' ');
        self.signed(coordinate(table, slot, i));
    }

    // Three coordinates of a cell, from the i-th on.
    #[tactic(auto, unfolding(crate::specs::Listing::corner_text))]
    fn corner(&mut self, table: &[u8; 65536], slot: usize, i: usize)
        requires i_bound { i + 2 < 6 }
        requires room { self.old.at + length (corner_in table.now slot i) ≤ 131072 }
        ensures { Appended self.old (corner_in table.now slot i) self.new }
    {
        self.coordinate(table, slot, i);
        self.coordinate(table, slot, i + 1);
        self.coordinate(table, slot, i + 2);
    }

    // The line of a cell.
    fn cell(&mut self, table: &[u8; 65536], slot: usize)
        requires { self.old.at + length (cell_line (record_in table.now slot)) ≤ 131072 }
        ensures { Appended self.old (cell_line (record_in table.now slot)) self.new }
    {
        self.decimal(state(table, slot));
        self.corner(table, slot, 0);
        self.corner(table, slot, 3);
        self.byte(b'\n');
    }

    // The lines of so many cells of the chain from a slot on. An iterator over the chain would have the invariant of this loop beside it all the same.
    fn cells(&mut self, table: &[u8; 65536], first: usize, cells: usize)
        requires { self.old.at + length (cell_lines (chain cells table.now first)) ≤ 131072 }
        ensures { Appended self.old (cell_lines (chain cells table.now first)) self.new }
    {
        let mut slot = first;
        for _ in 0..cells {
            self.cell(table, slot);
            slot = next_slot(table, slot);
        }
    }

    // The first line.
    #[tactic(auto, unfolding(crate::specs::Listing::head_line))]
    fn head(&mut self, head: Head)
        requires { self.old.at + length (head_line head) ≤ 131072 }
        ensures { Appended self.old (head_line head) self.new }
    {
        self.decimal(head.cells);
        self.spaced(head.evaluated);
        self.spaced(head.solid);
        self.spaced(head.open);
        self.byte(b'\n');
    }
}

// What is printed of a table.
#[tactic(auto, unfolding(crate::specs::Listing::listing))]
pub fn put_listing(table: &[u8; 65536], out: &mut [u8; 131072]) -> usize
    requires { length (listing table.now) ≤ 131072 }
    ensures text { out.new ≡ sets out.old 0 (listing table.now) }
    ensures end { result ≡ length (listing table.now) }
    ensures front { Front result out.new }
{
    let head = head_of(table);
    let mut text = Text { out, at: 0 };
    text.head(head);
    text.cells(table, head.first, head.cells);
    text.at
}

// What is printed of a refusal.
pub fn put_refused(out: &mut [u8; 131072], n: u32) -> usize
    ensures text { out.new ≡ sets out.old 0 (refused_text n) }
    ensures end { result ≡ length (refused_text n) }
    ensures front { Front result out.new }
{
    let mut text = Text { out, at: 0 };
    text.bytes(b"refused");
    text.spaced(n as usize);
    text.byte(b'\n');
    text.at
}
