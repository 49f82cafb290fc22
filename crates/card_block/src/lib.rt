// One block of a card: its check, its shape, and what it makes of the moment that is open before it. What a block is, and when it stays, is
// said in the crate `cards`; what `judge` answers is in specs/Judging.antt. Assumes nothing: any bytes are judged.
#![tactic(auto)]

pub mod sums; // sums.rt: the check, numbers and unused bytes
mod shape; // shape.rt: the shape of a record and of a block
pub mod moments; // moments.rt: the moments that run through a block

ghost use Rattle.std.specs.Prelude.{◌≡◌, get_or};
ghost use Rattle.cards.specs.Blocks.{block_of};
ghost use Rattle.card_block.specs.Judging.{nothing, judged_block, judgement};
ghost use Rattle.card_block.specs.Shapes.{Shaped};

use crate::moments::{Moment, walk};
use crate::shape::shaped;
use crate::sums::{checked, number_at};
use std::fmt;

// Why a block goes, and where the reader stops; the number stands for it in the list of a mended card.
#[derive(Clone, Copy, PartialEq, Eq)]
pub enum Reason {
    Check = 1,
    Shape = 2,
    Number = 3,
}

// The word of a reason.
impl fmt::Display for Reason {
    fn fmt<W: fmt::Write>(&self, f: &mut fmt::Formatter<W>) -> fmt::Result {
        match self {
            Reason::Check => f.write_str("check"),
            Reason::Shape => f.write_str("shape"),
            Reason::Number => f.write_str("number"),
        }
    }
}

// What is carried from block to block: the number that runs on, and the moment that is open.
#[derive(Clone, Copy)]
pub struct Carried {
    pub next: u64,
    pub moment: Option<Moment>,
}

// What is carried at the beginning of a card: nothing.
pub fn begun() -> Carried
    ensures { result ≡ nothing }
{
    Carried {
        next: 0,
        moment: None,
    }
}

// The count of records that byte 1 says, and 0 where there is no such byte.
pub fn records(piece: &[u8]) -> usize
    ensures { result ≡ get_or piece.now 1 0 }
{
    piece.get(1).map_or(0, |count| usize::from(*count))
}

// A block of a good shape: a moment that is open runs on into it where it has the next number. Number comes after shape: a block that isn't above
// the last kept one goes.
fn judge_block(piece: &[u8], before: Carried) -> Result<Carried, Reason>
    requires { Shaped piece.now }
    ensures { result ≡ judged_block (block_of piece.now) before }
{
    let number = u64::from(number_at(piece, 2));
    let held = if number == before.next {
        before.moment
    } else {
        None
    };
    let moment = walk(piece, records(piece), held)?;
    if number < before.next {
        return Err(Reason::Number);
    }
    Ok(Carried {
        next: number + 1,
        moment,
    })
}

// What is carried on past a piece of a card, after what came before it, or why the piece goes.
pub fn judge(piece: &[u8], before: Carried) -> Result<Carried, Reason>
    ensures { result ≡ judgement piece.now before }
{
    if piece.len() != 512 {
        return Err(Reason::Shape);
    }
    if !checked(piece) {
        return Err(Reason::Check);
    }
    if !shaped(piece) {
        return Err(Reason::Shape);
    }
    judge_block(piece, before)
}
