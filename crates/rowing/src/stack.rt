// The frames that wait for their operand, the last on top.
ghost use Rattle.std.specs.Prelude.{◌≡◌, ◌+◌, ◌≤◌, ◌<◌, List, [], ◌∷◌, length};
ghost use Rattle.text.specs.Held.{Held};
ghost use Rattle.rowing.specs.Framing.{binary_of, held_of};
ghost use Rattle.rowing.specs.Stacking.{waiting_in, Pops, Fills, Pushes, Shuts, Finishes};

use crate::frames::{Frame, Operator, early, late};
use crate::table::Table;
use std::marker::Model;

// The limit below which all frames but parentheses have room, and that below which all have.
const UP_TO_PARENTHESIS: u16 = 5;

const TO_THE_END: u16 = 10;

// At most N frames.
#[derive(Drop)]
pub struct Stack<const N: usize> {
    frames: [Frame; N],
    top: usize,
}

impl<const N: usize> Model for Stack<N> {
    ghost Value = { List Held };

    ghost view = { λ s. waiting_in s.frames s.top };

    ghost invariant = { λ s. s.top ≤ N };
}

impl<const N: usize> Stack<N> {
    // No frames.
    pub fn new() -> Self
        ensures { result ≡ [] }
    {
        Stack {
            frames: [Frame::Parenthesis; N],
            top: 0,
        }
    }

    // A frame comes, and waits for its operand.
    pub fn push(&mut self, frame: Frame)
        requires { length self.old < N }
        ensures { self.new ≡ held_of frame ∷ self.old }
    {
        self.frames[self.top] = frame;
        self.top += 1;
    }

    // The last frame goes, where its room is below the limit.
    pub fn pop_below(&mut self, limit: u16) -> Option<Frame>
        ensures { Pops limit self.old self.new result }
    {
        if self.top == 0 {
            return None;
        }
        let frame = self.frames[self.top - 1];
        if limit <= u16::from(frame.room()) {
            return None;
        }
        self.top -= 1;
        Some(frame)
    }
}

// The frames with room below the limit take their operand, which has the row, from the top on.
pub fn fill<const N: usize>(
    table: &mut Table,
    stack: &mut Stack<N>,
    limit: u16,
    row: u8,
) -> Option<u8>
    ensures fills { Fills limit table.old row stack.old table.new result stack.new }
    ensures fewer { length stack.new ≤ length stack.old }
{
    let mut last = row;
    while let Some(frame) = stack.pop_below(limit) {
        last = late(table, frame, last)?;
    }
    Some(last)
}

// An operator comes, and waits for its right operand.
pub fn push<const N: usize>(
    table: &mut Table,
    stack: &mut Stack<N>,
    operator: Operator,
    row: u8,
) -> Option<()>
    requires { length stack.old < N }
    ensures pushes { Pushes (binary_of operator) table.old row stack.old table.new result stack.new }
    ensures near { length stack.new ≤ length stack.old + 1 }
{
    let left = fill(table, stack, u16::from(operator.level()), row)?;
    let kept = early(table, operator, left)?;
    stack.push(operator.frame(kept));
    Some(())
}

// `)` comes: the frames take their operand, up to the last parenthesis, and that is closed.
pub fn shut<const N: usize>(table: &mut Table, stack: &mut Stack<N>, row: u8) -> Option<u8>
    ensures shuts { Shuts table.old row stack.old table.new result stack.new }
    ensures fewer { length stack.new ≤ length stack.old }
{
    let last = fill(table, stack, UP_TO_PARENTHESIS, row)?;
    let _parenthesis = stack.pop_below(TO_THE_END);
    Some(last)
}

// The end comes: all frames take their operand.
pub fn finish<const N: usize>(table: &mut Table, stack: &mut Stack<N>, row: u8) -> Option<u8>
    ensures { Finishes table.old row stack.old table.new result }
{
    fill(table, stack, TO_THE_END, row)
}
