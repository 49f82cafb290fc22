// A record of a card as a struct: read from the bytes of a block, and put as bytes. What a record's bytes are is in the crate `cards`.
#![tactic(auto)]

ghost use Rattle.std.specs.Prelude.{◌≡◌, ◌+◌, ◌*◌, ◌≤◌, length, take, drop};
ghost use Rattle.std.proofs.lemmas.List.Edits.{sets};
ghost use Rattle.cards.specs.Bytes.{bytes_of};
ghost use Rattle.cards.specs.Blocks.{record_of, record_bytes};
ghost use Rattle.card_records.specs.Facts.{record_from, used, marks, values_bytes};

use card_block::sums::number_at;

// A record: its stamp, its predicate, the count of its values, three values, of which those past the count say nothing, and whether it is the
// last of its moment.
#[derive(Clone, Copy)]
pub struct Fact {
    pub stamp: u32,
    pub predicate: u32,
    pub count: u32,
    pub values: [u32; 3],
    pub last: bool,
}

// The record at place i of a block.
pub fn fact_at(piece: &[u8], i: usize) -> Fact
    requires { 30 + 24 * i ≤ length piece.now }
    ensures { record_from result ≡ record_of (take 24 (drop (6 + 24 * i) piece.now)) }
{
    let at = 6 + 24 * i;
    Fact {
        stamp: number_at(piece, at),
        predicate: number_at(piece, at + 4),
        count: u32::from(piece[at + 8]),
        values: [
            number_at(piece, at + 12),
            number_at(piece, at + 16),
            number_at(piece, at + 20),
        ],
        last: piece[at + 9] == 1,
    }
}

// Puts a number as four bytes, least byte first.
pub fn put_number(out: &mut [u8], at: usize, n: u32)
    requires { at + 4 ≤ length out.old }
    ensures { out.new ≡ sets out.old at (bytes_of 4 n) }
{
    out[at..at + 4].copy_from_slice(&n.to_le_bytes());
}

// The value at place i, and 0 past the count.
fn value_of(count: u32, i: u32, value: u32) -> u32
    ensures { result ≡ used count i value }
{
    if i < count { value } else { 0 }
}

// Puts the count of values, at most 3, the flag and two zero bytes.
fn put_marks(out: &mut [u8], at: usize, count: u32, last: bool)
    requires { at + 4 ≤ length out.old }
    ensures { out.new ≡ sets out.old at (marks count last) }
{
    let marks = [count.min(3) as u8, u8::from(last), 0, 0];
    out[at..at + 4].copy_from_slice(&marks);
}

// Puts three values.
fn put_values(out: &mut [u8], at: usize, f: Fact)
    requires { at + 12 ≤ length out.old }
    ensures { out.new ≡ sets out.old at (values_bytes f) }
{
    put_number(out, at, value_of(f.count, 0, f.values[0]));
    put_number(out, at + 4, value_of(f.count, 1, f.values[1]));
    put_number(out, at + 8, value_of(f.count, 2, f.values[2]));
}

// Puts a record as 24 bytes.
pub fn put_fact(out: &mut [u8], at: usize, f: Fact)
    requires { at + 24 ≤ length out.old }
    ensures { out.new ≡ sets out.old at (record_bytes (record_from f)) }
{
    put_number(out, at, f.stamp);
    put_number(out, at + 4, f.predicate);
    put_marks(out, at + 8, f.count, f.last);
    put_values(out, at + 12, f);
}
