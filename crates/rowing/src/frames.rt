// Operators, and frames that wait for their operand: what they make.
ghost use Rattle.std.specs.Prelude.{◌≡◌};
ghost use Rattle.text.specs.Grammar.{level};
ghost use Rattle.text.specs.Emit.{negated};
ghost use Rattle.text.specs.Held.{joins};
ghost use Rattle.rowing.specs.Denoted.{Turns, Denies};
ghost use Rattle.rowing.specs.Framing.{row_of, binary_of, held_of, room_in, Late, Early};

use crate::rows::Row;
use crate::table::Table;

// An operator between two operands.
#[derive(Clone, Copy, PartialEq, Eq)]
pub enum Operator {
    Since,
    And,
    Or,
    Implies,
}

impl Operator {
    // How loosely it binds.
    #[tactic(auto, unfolding(crate::specs::Framing::binary_of, text::specs::Grammar::level))]
    pub fn level(self) -> u8
        ensures { result ≡ level (binary_of self) }
    {
        match self {
            Operator::Since => 1,
            Operator::And => 2,
            Operator::Or => 3,
            Operator::Implies => 4,
        }
    }

    // The operator waits for its right operand, with the row of what it keeps of its left one.
    #[tactic(auto, unfolding(crate::specs::Framing::binary_of, crate::specs::Framing::held_of))]
    pub fn frame(self, kept: u8) -> Frame
        ensures { held_of result ≡ joins (binary_of self) kept }
    {
        match self {
            Operator::Since => Frame::Since(kept),
            Operator::And => Frame::And(kept),
            Operator::Or => Frame::Or(kept),
            Operator::Implies => Frame::Implies(kept),
        }
    }
}

// A frame: `P` and `H` hold the row of true, a quantifier its slot, an operator the row of what it keeps of its left operand.
#[derive(Clone, Copy, PartialEq, Eq)]
pub enum Frame {
    Parenthesis,
    Once(u8),
    Historically(u8),
    Before,
    Not,
    ForAll(u8),
    Exists(u8),
    Since(u8),
    And(u8),
    Or(u8),
    Implies(u8),
}

impl Frame {
    // The loosest level of an operand that it takes; a parenthesis takes any, and only at its end.
    #[tactic(auto, unfolding(crate::specs::Framing::held_of, crate::specs::Framing::room_in, text::specs::Held::room_for, text::specs::Grammar::right_level))]
    pub fn room(self) -> u8
        ensures { result ≡ room_in (held_of self) }
    {
        match self {
            Frame::Parenthesis => 9,
            Frame::Once(_) | Frame::Historically(_) | Frame::Before | Frame::Not => 0,
            Frame::Since(_) => 0,
            Frame::And(_) => 1,
            Frame::Or(_) => 2,
            Frame::Implies(_) | Frame::ForAll(_) | Frame::Exists(_) => 4,
        }
    }
}

// The negation of the row.
#[tactic(auto, unfolding(crate::specs::Framing::row_of, text::specs::Emit::negated))]
pub fn negate(table: &mut Table, row: u8) -> Option<u8>
    ensures { Turns negated table.old row table.new result }
{
    table.make(Row::Neg(row).numbers())
}

// The negation of a row that is found or made.
#[tactic(auto, using(crate::proofs::FrameLaws::denied_over))]
fn denied(table: &mut Table, row: Row) -> Option<u8>
    ensures { Denies table.old (row_of row) table.new result }
{
    let inner = table.make(row.numbers())?;
    negate(table, inner)
}

// The frame takes its operand, which has the row.
#[tactic(auto, using(crate::proofs::FrameLaws::negated_over), unfolding(crate::specs::Framing::held_of, crate::specs::Framing::row_of, text::specs::Held::made, text::specs::Emit::applied_rows, text::specs::Emit::bound_rows, text::specs::Emit::binary_rows))]
pub fn late(table: &mut Table, frame: Frame, row: u8) -> Option<u8>
    ensures { Late frame table.old row table.new result }
{
    match frame {
        Frame::Parenthesis => Some(row),
        Frame::Once(left) | Frame::Since(left) => table.make(Row::Since(left, row).numbers()),
        Frame::And(left) => table.make(Row::Both(left, row).numbers()),
        Frame::Before => table.make(Row::Previous(row).numbers()),
        Frame::Exists(slot) => table.make(Row::Exists(slot, row).numbers()),
        Frame::Not => negate(table, row),
        Frame::Historically(left) => {
            let not = negate(table, row)?;
            denied(table, Row::Since(left, not))
        }
        Frame::Or(left) | Frame::Implies(left) => {
            let not = negate(table, row)?;
            denied(table, Row::Both(left, not))
        }
        Frame::ForAll(slot) => {
            let not = negate(table, row)?;
            denied(table, Row::Exists(slot, not))
        }
    }
}

// The operator comes: what it keeps of its left operand, which has the row.
#[tactic(auto, using(crate::proofs::FrameLaws::negated_longer), unfolding(crate::specs::Framing::binary_of, text::specs::Held::keeps))]
pub fn early(table: &mut Table, operator: Operator, row: u8) -> Option<u8>
    ensures { Early operator table.old row table.new result }
{
    match operator {
        Operator::Since | Operator::And => Some(row),
        Operator::Or => negate(table, row),
        Operator::Implies => {
            let not = negate(table, row)?;
            negate(table, not)
        }
    }
}
