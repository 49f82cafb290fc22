// A rule as rows of nine numbers: decoded, checked once for all (refusal 2), and asked about the counts of an event (refusal 5).
// What a row says and when it is right is defined in the crate `meaning`.
#![tactic(auto)]

mod masks;
mod right;

ghost use Rattle.std.specs.Prelude.{◌≡◌, ◌+◌, ◌*◌, ◌<◌, ◌≤◌, length};
ghost use Rattle.meaning.specs.Rows.{field};
ghost use Rattle.rule.specs.Decoded.{argument_read, Decodes};
ghost use Rattle.rule.specs.Checking.{Checks, FactAgrees, Agrees};

use meaning::{Event, Value};

// An argument of an atom.
#[derive(Clone, Copy)]
pub enum Argument {
    Variable(u32),
    Constant(Value),
}

// An atom: its predicate, and three arguments, of which the first `count` are used.
#[derive(Clone, Copy)]
pub struct Atom {
    pub predicate: u32,
    pub count: u32,
    pub arguments: [Argument; 3],
}

// A row: one of seven kinds.
#[derive(Clone, Copy)]
pub enum Row {
    True,
    Atom(Atom),
    And(u32, u32),
    Not(u32),
    Since(u32, u32),
    Previous(u32),
    Exists(u32, u32),
}

// Refusal 2: the row of the first fault.
#[derive(Clone, Copy, PartialEq, Eq)]
pub struct Fault {
    pub row: u32,
}

// The most rows of a rule, values of a fact and facts of an event.
const MOST_ROWS: usize = 64;

const MOST_VALUES: u32 = 3;

const MOST_FACTS: u32 = 8;

// The field `f` of the row at place `i`.
fn field_of(rows: &[u32], i: usize, f: usize) -> u32
    requires { 9 * i + f < length rows.now }
    ensures { result ≡ field rows.now i f }
{
    rows[9 * i + f]
}

// The argument of a mark and a value.
fn argument_of(mark: u32, value: u32) -> Argument
    ensures { result ≡ argument_read mark value }
{
    if mark == 0 {
        Argument::Variable(value)
    } else {
        Argument::Constant(Value(value))
    }
}

// The row at place `i`. A row of a kind that is not 1 to 7 is never right; it reads as its neighbour does.
pub fn row_at(rows: &[u32], i: usize) -> Row
    requires { 9 * i + 9 ≤ length rows.now }
    ensures { Decodes rows.now i result }
{
    let kind = field_of(rows, i, 0);
    let p = field_of(rows, i, 1);
    let q = field_of(rows, i, 2);
    match kind {
        0 | 1 => Row::True,
        2 => Row::Atom(Atom {
            predicate: p,
            count: q,
            arguments: [
                argument_of(field_of(rows, i, 3), field_of(rows, i, 4)),
                argument_of(field_of(rows, i, 5), field_of(rows, i, 6)),
                argument_of(field_of(rows, i, 7), field_of(rows, i, 8)),
            ],
        }),
        3 => Row::And(p, q),
        4 => Row::Not(p),
        5 => Row::Since(p, q),
        6 => Row::Previous(p),
        _ => Row::Exists(p, q),
    }
}

// The free variables of each row, as a number whose bit v says that the variable v is free in it; or refusal 2: the shape; then row by
// row its own rules and the counts; then the last row's free variables.
pub fn check(rows: &[u32]) -> Result<[u32; 64], Fault>
    ensures { Checks rows.now result }
{
    let n = rows.len() / 9;
    if rows.len() % 9 != 0 || n == 0 || MOST_ROWS < n {
        return Err(Fault { row: 0 });
    }
    let mut free = [0u32; 64];
    for i in 0..n {
        if !right::row_right(rows, i) || !right::counts_agree(rows, i) {
            return Err(Fault { row: i as u32 });
        }
        let m = masks::of_row(row_at(rows, i), &free);
        free[i] = m;
    }
    if free[n - 1] != 0 {
        return Err(Fault { row: n as u32 - 1 });
    }
    Ok(free)
}

// A fact of this predicate and count agrees with every atom of the rule.
fn fact_agrees(rows: &[u32], predicate: u32, count: u32) -> bool
    ensures { FactAgrees rows.now predicate count result }
{
    count <= MOST_VALUES
        && (0..rows.len() / 9).all(|i| !right::other_count(rows, i, predicate, count))
}

// The event has at most eight facts, and each agrees: refusal 5 is given where it is not so. Facts past the count are not looked at.
pub fn agrees(rows: &[u32], event: Event) -> bool
    ensures { Agrees rows.now event result }
{
    if MOST_FACTS < event.count {
        return false;
    }
    let n = event.count as usize;
    event
        .facts
        .iter()
        .take(n)
        .all(|fact| fact_agrees(rows, fact.predicate, fact.count))
}
