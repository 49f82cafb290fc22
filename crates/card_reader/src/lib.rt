// The reader of a card: piece after piece, up to the first bad block. What a card says is in the crate `cards`; what one step answers is in
// specs/Stepping.antt, and what `read` answers in specs/Finding.antt. Assumes nothing: any bytes are read.
#![tactic(auto)]

ghost use Rattle.std.specs.Prelude.{◌≡◌, ◌<◌};
ghost use Rattle.card_reader.specs.Stepping.{stepped, stepped_by};
ghost use Rattle.card_reader.specs.Finding.{Finds};

use card_block::{Carried, Reason};

// A block that stays: what is carried on, whether the monitor starts anew before it, and the count of its records.
#[derive(Clone, Copy)]
pub struct Onward {
    pub carried: Carried,
    pub anew: bool,
    pub records: usize,
}

// Why the reader does not go on past a piece: the piece goes, or a moment is open at the gap before it.
#[derive(Clone, Copy, PartialEq, Eq)]
pub enum Stop {
    Goes(Reason),
    Open,
}

// A piece that goes stops the reader.
impl From<Reason> for Stop {
    ghost use Rattle.card_reader.specs.declared.Stop.TheVariants.{Goes};

    ghost from_gives = { λ why stop. stop ≡ Goes why };

    fn from(why: Reason) -> Stop {
        Stop::Goes(why)
    }
}

// The first bad block: its place, from 0, and the reason.
#[derive(Clone, Copy, PartialEq, Eq)]
pub struct Bad {
    pub place: usize,
    pub why: Reason,
}

// A block that stays, after what was carried to it.
fn go_on(carried: Carried, after: Carried, records: usize) -> Result<Onward, Stop>
    requires { 0 < after.next }
    ensures { result ≡ stepped_by carried after records }
{
    let anew = after.next - 1 != carried.next;
    if anew && carried.moment.is_some() {
        return Err(Stop::Open);
    }
    Ok(Onward {
        carried: after,
        anew,
        records,
    })
}

// Reads one piece, after what was carried to it.
pub fn read_piece(piece: &[u8], carried: Carried) -> Result<Onward, Stop>
    ensures { result ≡ stepped piece.now carried }
{
    let after = card_block::judge(piece, carried)?;
    go_on(carried, after, card_block::records(piece))
}

// Reads a whole card: nothing is bad on it, or this is the first bad block.
pub fn read(card: &[u8]) -> Result<(), Bad>
    ensures { Finds card.now result }
{
    let mut carried = card_block::begun();
    let mut held = 0;
    for (place, piece) in card.chunks(512).enumerate() {
        match read_piece(piece, carried) {
            Err(Stop::Goes(why)) => return Err(Bad { place, why }),
            Err(Stop::Open) => {
                return Err(Bad {
                    place: held,
                    why: Reason::Shape,
                });
            }
            Ok(onward) => {
                carried = onward.carried;
                if onward.records != 0 {
                    held = place;
                }
            }
        }
    }
    if carried.moment.is_some() {
        return Err(Bad {
            place: held,
            why: Reason::Shape,
        });
    }
    Ok(())
}
