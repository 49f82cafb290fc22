// A word where an operand must come: what it makes, and which frame waits for what follows.
ghost use Rattle.std.specs.Prelude.{◌≡◌, ◌+◌, ◌-◌, ◌≤◌, ◌<◌, ◌∷◌, length, take, drop};
ghost use Rattle.meaning.specs.Rows;
ghost use Rattle.spelling.specs.Kinds.{kind_code};
ghost use Rattle.census.specs.Folds.{Lexed};
ghost use Rattle.census.specs.Tables.{names_at, Within};
ghost use Rattle.text.specs.Parts.{nine};
ghost use Rattle.rowing.specs.Denoted.{Makes};
ghost use Rattle.rowing.specs.Framing.{row_of};
ghost use Rattle.drive.specs.Drives.{at_operand};
ghost use Rattle.drive.specs.Driving.{SlotAt, Atomic, Moves};

use crate::known::Known;
use atomic::atom;
use rowing::frames::{Frame, negate};
use rowing::rows::Row;
use rowing::stack::Stack;
use rowing::table::Table;
use spelling::kinds::Kind;
use spelling::words::{Taken, next_word};

// The slot of the variable after a quantifier that ends at the place.
fn slot_after(known: Known, at: usize) -> u8
    requires { Lexed known.text.now at }
    ensures { SlotAt (names_at known.entry.text.now known.entry.variables.now) known.entry.text.now at result }
{
    match next_word(known.text, at) {
        Some(w) => known.slot(&known.text[w.from..w.past]),
        // The text ends at its quantifier, which no rule text does.
        None => 0,
    }
}

// The row of the atom whose name is the word.
fn named(known: Known, table: &mut Table, t: Taken) -> Option<u8>
    requires { Within known.text.now t.from t.past × Lexed known.text.now t.past }
    ensures { Atomic (names_at known.entry.text.now known.entry.predicates.now) (names_at known.entry.text.now known.entry.variables.now) known.entry.text.now (take (t.past - t.from) (drop t.from known.entry.text.now)) t.past table.old table.new result }
{
    let predicate = known.predicate(&known.text[t.from..t.past]);
    table.make(atom(known.variable_names(), predicate, t.past))
}

// The row of true.
#[tactic(auto, unfolding(rowing::specs::Framing::row_of))]
fn truth(table: &mut Table) -> Option<u8>
    ensures { Makes table.old (nine Rows.truth) table.new result }
{
    table.make(Row::Truth.numbers())
}

// The word comes.
pub fn operand<const N: usize>(
    known: Known,
    table: &mut Table,
    stack: &mut Stack<N>,
    t: Taken,
    row: u8,
) -> Option<u8>
    requires within { Within known.text.now t.from t.past × Lexed known.text.now t.past }
    requires room { length stack.old < N }
    ensures moves { Moves (names_at known.entry.text.now known.entry.variables.now) (at_operand (names_at known.entry.text.now known.entry.predicates.now) (names_at known.entry.text.now known.entry.variables.now)) known.entry.text.now 0 (kind_code t.word) t.from t.past table.old row stack.old table.new result stack.new }
    ensures near { length stack.new ≤ length stack.old + 1 }
{
    match t.word {
        Kind::Name => named(known, table, t),
        Kind::True => truth(table),
        Kind::False => {
            let row = truth(table)?;
            negate(table, row)
        }
        Kind::Once => {
            let row = truth(table)?;
            stack.push(Frame::Once(row));
            Some(row)
        }
        Kind::Historically => {
            let row = truth(table)?;
            stack.push(Frame::Historically(row));
            Some(row)
        }
        Kind::Before => {
            stack.push(Frame::Before);
            Some(row)
        }
        Kind::Not => {
            stack.push(Frame::Not);
            Some(row)
        }
        Kind::Forall => {
            stack.push(Frame::ForAll(slot_after(known, t.past)));
            Some(row)
        }
        Kind::Exists => {
            stack.push(Frame::Exists(slot_after(known, t.past)));
            Some(row)
        }
        Kind::Open => {
            stack.push(Frame::Parenthesis);
            Some(row)
        }
        _ => Some(row),
    }
}
