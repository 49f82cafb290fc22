// The moments that run through a block, and the one that is open.
ghost use Rattle.std.specs.Prelude.{◌+◌, ◌*◌, ◌≤◌, ◌≡◌, length, drop};
ghost use Rattle.card_block.specs.Shapes.{records_from};
ghost use Rattle.card_block.specs.Judging.{open_at, may_belong, onward, went_on, walked_by};

use crate::Reason;
use crate::sums::number_at;

// A moment that is open: the stamp of its records, and how many it has beyond the first.
#[derive(Clone, Copy, PartialEq, Eq)]
pub struct Moment {
    pub stamp: u32,
    pub more: u32,
}

// A moment has at most 8 records, so 7 beyond its first.
const MOST: u32 = 7;

// A record of this stamp can belong to the open moment, or begin one.
pub fn may_belong(held: Option<Moment>, stamp: u32) -> bool
    ensures { result ≡ may_belong (open_at held).count (open_at held).stamp stamp }
{
    match held {
        None => true,
        Some(m) => m.more < MOST && stamp == m.stamp,
    }
}

// What is open after a record of this stamp, flagged as the last of its moment or not.
pub fn go_on(held: Option<Moment>, stamp: u32, last: bool) -> Option<Moment>
    requires { (open_at held).count ≤ 8 }
    ensures { open_at result ≡ onward last (open_at held).count (open_at held).stamp stamp }
{
    if last {
        return None;
    }
    match held {
        None => Some(Moment { stamp, more: 0 }),
        Some(m) => Some(Moment {
            stamp: m.stamp,
            more: m.more + 1,
        }),
    }
}

// The same, of any record: one that is a ninth, or has another stamp than the open moment, is a bad shape.
pub fn went_on(held: Option<Moment>, stamp: u32, last: bool) -> Result<Option<Moment>, Reason>
    ensures { result ≡ went_on (open_at held) stamp last }
{
    if !may_belong(held, stamp) {
        return Err(Reason::Shape);
    }
    Ok(go_on(held, stamp, last))
}

// What is open after the first `records` records of a block.
pub fn walk(piece: &[u8], records: usize, before: Option<Moment>) -> Result<Option<Moment>, Reason>
    requires { 6 + 24 * records ≤ length piece.now }
    ensures { result ≡ walked_by (open_at before) (records_from records (drop 6 piece.now)) }
{
    let mut held = before;
    for i in 0..records {
        let at = 6 + 24 * i;
        held = went_on(held, number_at(piece, at), piece[at + 9] == 1)?;
    }
    Ok(held)
}
