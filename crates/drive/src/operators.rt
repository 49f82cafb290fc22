// A word where an operator must come: an operator or `)`.
ghost use Rattle.std.specs.Prelude.{◌+◌, ◌≤◌, ◌<◌, length};
ghost use Rattle.spelling.specs.Kinds.{kind_code};
ghost use Rattle.rowing.specs.Framing.{binary_of};
ghost use Rattle.drive.specs.Driving.{Joins, Operates};

use rowing::frames::Operator;
use rowing::stack::{Stack, push, shut};
use rowing::table::Table;
use spelling::kinds::Kind;

// The operator waits for its right operand. There is no last row then, and 0 stands for it.
fn join<const N: usize>(
    table: &mut Table,
    stack: &mut Stack<N>,
    operator: Operator,
    row: u8,
) -> Option<u8>
    requires { length stack.old < N }
    ensures joins { Joins (binary_of operator) table.old row stack.old table.new result stack.new }
    ensures near { length stack.new ≤ length stack.old + 1 }
{
    push(table, stack, operator, row)?;
    Some(0)
}

// The word comes.
pub fn operator<const N: usize>(
    table: &mut Table,
    stack: &mut Stack<N>,
    word: Kind,
    row: u8,
) -> Option<u8>
    requires { length stack.old < N }
    ensures operates { Operates (kind_code word) table.old row stack.old table.new result stack.new }
    ensures near { length stack.new ≤ length stack.old + 1 }
{
    match word {
        Kind::Since => join(table, stack, Operator::Since, row),
        Kind::And => join(table, stack, Operator::And, row),
        Kind::Or => join(table, stack, Operator::Or, row),
        Kind::Implies => join(table, stack, Operator::Implies, row),
        Kind::Close => shut(table, stack, row),
        _ => Some(row),
    }
}
