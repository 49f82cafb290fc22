// The pass over all words.
ghost use Rattle.std.specs.Prelude.{◌≡◌, ◌+◌, ◌≤◌, ◌<◌, length};
ghost use Rattle.text.specs.Grammar.{HasReading};
ghost use Rattle.spelling.specs.Kinds.{kind_code};
ghost use Rattle.spelling.specs.Modes.{mode_code};
ghost use Rattle.census.specs.Folds.{Lexed};
ghost use Rattle.census.specs.Tables.{names_at, Within};
ghost use Rattle.census.specs.Clashes.{Predicates};
ghost use Rattle.census.specs.Scopes.{Variables};
ghost use Rattle.drive.specs.Drives.{at_mode};
ghost use Rattle.drive.specs.Driving.{Moves, Passed, RowsOf};

use crate::known::Known;
use crate::operands::operand;
use crate::operators::operator;
use rowing::stack::{Stack, finish};
use rowing::table::Table;
use spelling::modes::{Mode, next_mode};
use spelling::words::{Taken, next_word};

// A word comes, by what must come.
fn one<const N: usize>(
    known: Known,
    table: &mut Table,
    stack: &mut Stack<N>,
    mode: Mode,
    t: Taken,
    row: u8,
) -> Option<u8>
    requires within { Within known.text.now t.from t.past × Lexed known.text.now t.past }
    requires room { length stack.old < N }
    ensures moves { Moves (names_at known.entry.text.now known.entry.variables.now) (at_mode (names_at known.entry.text.now known.entry.predicates.now) (names_at known.entry.text.now known.entry.variables.now) (mode_code mode)) known.entry.text.now (mode_code mode) (kind_code t.word) t.from t.past table.old row stack.old table.new result stack.new }
    ensures near { length stack.new ≤ length stack.old + 1 }
{
    match mode {
        Mode::Operand => operand(known, table, stack, t, row),
        Mode::Operator | Mode::AfterName => operator(table, stack, t.word, row),
        _ => Some(row),
    }
}

// The rows of a text that refusals 3 to 5 let pass are made, whatever the table has before; or none, where they are more than 64.
pub fn rows_of(known: Known, table: &mut Table) -> Option<()>
    requires has_reading { HasReading known.text.now × (length known.text.now ≤ 4096) × Passed known.text.now }
    requires names { Predicates known.text.now known.predicates.now × Variables known.text.now known.variables.now }
    ensures { RowsOf known.entry.text.now table.new result }
{
    table.clear();
    let mut stack = Stack::<4096>::new();
    let mut row = 0;
    let mut mode = Mode::Operand;
    let mut at = 0;
    while let Some(t) = next_word(known.text, at) {
        row = one(known, table, &mut stack, mode, t, row)?;
        mode = next_mode(mode, t.word);
        at = t.past;
    }
    finish(table, &mut stack, row)?;
    Some(())
}
