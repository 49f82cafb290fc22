// When a row is right: its fields by the table, its pairs, and its count beside those of earlier atoms.
ghost use Rattle.std.specs.Prelude.{◌≡◌, true, ℕ, ◌+◌, ◌*◌, ◌<◌, ◌≤◌, length};
ghost use Rattle.meaning.specs.Rows.{field_right, pair_right, row_right};
ghost use Rattle.rule.specs.Table.{entry, used_as, used_pairs};
ghost use Rattle.rule.specs.Checking.{pairs_right, agrees_before, atom_of, other_count};

use super::field_of;

// The kind of an atom.
const ATOM: u32 = 2;

// How a kind uses a field of its rows.
#[derive(Clone, Copy)]
pub enum Use {
    Unused,
    Predicate,
    Row,
    Variable,
    Count,
    Arguments,
}

// How the kinds 1 to 7 use p, q and the three pairs: where the pairs are arguments, they are as many as the count says.
pub const USES: [[Use; 3]; 7] = [
    [Use::Unused, Use::Unused, Use::Unused],
    [Use::Predicate, Use::Count, Use::Arguments],
    [Use::Row, Use::Row, Use::Unused],
    [Use::Row, Use::Unused, Use::Unused],
    [Use::Row, Use::Row, Use::Unused],
    [Use::Row, Use::Unused, Use::Unused],
    [Use::Variable, Use::Row, Use::Unused],
];

// How the kind uses the field: 0 is p, 1 is q, 2 stands for the pairs.
fn use_of(kind: u32, f: usize) -> Use
    requires { (0 < kind) × (kind ≤ 7) × (f < 3) }
    ensures { result ≡ entry kind f }
{
    USES[kind as usize - 1][f]
}

// The number `x` is right in a field of the row at place `i` that is used so.
fn field_right(i: usize, how: Use, x: u32) -> bool
    ensures { result ≡ field_right i (used_as how) x }
{
    match how {
        Use::Unused => x == 0,
        Use::Predicate => true,
        Use::Row => (x as usize) < i,
        Use::Variable => x < 4,
        Use::Count | Use::Arguments => x <= 3,
    }
}

// A pair is an argument where it is used, and 0 where it is not.
fn pair_right(used: bool, mark: u32, x: u32) -> bool
    ensures { result ≡ pair_right used mark x }
{
    if used {
        mark == 0 && x < 4 || mark == 1
    } else {
        mark == 0 && x == 0
    }
}

// How many pairs a row of this kind uses, where its field q is `q`.
fn pairs_used(kind: u32, q: u32) -> u32
    requires { (0 < kind) × (kind ≤ 7) }
    ensures { result ≡ used_pairs kind q }
{
    match use_of(kind, 2) {
        Use::Arguments => q,
        _ => 0,
    }
}

// The three pairs of the row at place `i`, of which the first `used` are used.
fn pairs_right(rows: &[u32], i: usize, used: u32) -> bool
    requires { 9 * i + 9 ≤ length rows.now }
    ensures { result ≡ pairs_right rows.now i used }
{
    (0..3).all(|j: u32| {
        let at = 2 * j as usize;
        let mark = field_of(rows, i, 3 + at);
        let value = field_of(rows, i, 4 + at);
        pair_right(j < used, mark, value)
    })
}

// The row at place `i` keeps the row rules.
pub fn row_right(rows: &[u32], i: usize) -> bool
    requires { 9 * i + 9 ≤ length rows.now }
    ensures { result ≡ row_right rows.now i }
{
    let kind = field_of(rows, i, 0);
    if kind == 0 || 7 < kind {
        return false;
    }
    let p = field_of(rows, i, 1);
    let q = field_of(rows, i, 2);
    field_right(i, use_of(kind, 0), p)
        && field_right(i, use_of(kind, 1), q)
        && pairs_right(rows, i, pairs_used(kind, q))
}

// The row at place `i` is an atom of this predicate.
fn is_atom_of(rows: &[u32], i: usize, predicate: u32) -> bool
    requires { 9 * i + 9 ≤ length rows.now }
    ensures { result ≡ atom_of rows.now i predicate }
{
    field_of(rows, i, 0) == ATOM && predicate == field_of(rows, i, 1)
}

// The row at place `i` disagrees with no earlier row, where the earlier ones agree: the nearest atom of its predicate decides.
pub fn counts_agree(rows: &[u32], i: usize) -> bool
    requires { (9 * i + 9 ≤ length rows.now) × ((j : ℕ) → j < i → agrees_before rows.now j ≡ true) }
    ensures { result ≡ agrees_before rows.now i }
{
    if field_of(rows, i, 0) != ATOM {
        return true;
    }
    let p = field_of(rows, i, 1);
    for j in (0..i).rev() {
        if is_atom_of(rows, j, p) {
            return field_of(rows, j, 2) == field_of(rows, i, 2);
        }
    }
    true
}

// The row at place `i` is an atom of this predicate with another count. A count over 3 reads as 3 arguments.
pub fn other_count(rows: &[u32], i: usize, predicate: u32, count: u32) -> bool
    requires { 9 * i + 9 ≤ length rows.now }
    ensures { result ≡ other_count rows.now i predicate count }
{
    is_atom_of(rows, i, predicate) && field_of(rows, i, 2).min(3) != count
}
