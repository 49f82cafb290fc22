// Mending a card: which blocks stay, which of their records, and the list of blocks. What mending keeps is in the crate `cards`; what one piece
// comes to is in specs/Weighing.antt, and what `mend` leaves in the slices in specs/Lines.antt. Assumes nothing: any bytes are mended.
#![tactic(auto)]

mod flags; // flags.rt: the first and the last flagged record of a block
pub mod looking; // looking.rt: whether a flagged record comes later in the stretch

ghost use Rattle.std.specs.Prelude.{◌≡◌, ◌+◌, ◌-◌, ◌*◌, ◌≤◌, length, drop, ◌∷◌, []};
ghost use Rattle.std.proofs.lemmas.List.Edits.{sets};
ghost use Rattle.cards.specs.Blocks.{block_of, block_bytes, pieces};
ghost use Rattle.cards.specs.Reading.{Before};
ghost use Rattle.cards.specs.Piecewise.{flagged_ahead};
ghost use Rattle.card_block.specs.Shapes.{records_from, Shaped};
ghost use Rattle.card_block.specs.Judging.{Carries};
ghost use Rattle.card_writer.specs.Sheets.{block_with};
ghost use Rattle.card_mender.specs.Weighing.{weighed, kept_by, stay_to};
ghost use Rattle.card_mender.specs.Lines.{MendsTo};
ghost use Rattle.card_mender.specs.Turning.{Whole, PutHeld, Ready, Turns};

use crate::flags::{past_first, past_last};
use crate::looking::flagged_ahead;
use card_block::sums::number_at;
use card_block::{Carried, Reason};
use card_records::fact_at;
use card_writer::{Sheet, copy_block};

// A block that stays: what is carried on, whether the stretch has begun with it, the first record that stays, the place past its last flagged
// record from there on, and the count of its records. Its records from `last` on stay only where a flagged one comes later in the stretch.
#[derive(Clone, Copy)]
pub struct Held {
    pub carried: Carried,
    pub begun: bool,
    pub from: usize,
    pub last: usize,
    pub records: usize,
}

// A block that stays. `on` says that it came after no gap, or that its stretch had a flagged record before it.
fn weigh_kept(piece: &[u8], after: Carried, on: bool) -> Held
    requires { Shaped piece.now }
    ensures { result ≡ kept_by piece.now after on }
{
    let records = card_block::records(piece);
    if on {
        return Held {
            carried: after,
            begun: true,
            from: 0,
            last: past_last(piece, 0, records),
            records,
        };
    }
    let from = past_first(piece, records);
    Held {
        carried: after,
        begun: past_last(piece, 0, records) != 0,
        from,
        last: past_last(piece, from, records),
        records,
    }
}

// What stays of a piece, after what was carried to it, or why it goes.
pub fn weigh(piece: &[u8], carried: Carried, begun: bool) -> Result<Held, Reason>
    ensures { result ≡ weighed piece.now carried begun }
{
    let after = card_block::judge(piece, carried)?;
    let on = begun && after.next - 1 == carried.next;
    Ok(weigh_kept(piece, after, on))
}

// The block with its number and its records from one place up to another, and a new check.
pub fn kept_block(piece: &[u8], from: usize, to: usize) -> [u8; 512]
    requires { (6 + 24 * to ≤ length piece.now) × (from ≤ to) × (to ≤ 21) }
    ensures { result ≡ block_bytes (block_with (block_of piece.now).number (records_from (to - from) (drop (6 + 24 * from) piece.now))) }
{
    let mut sheet = Sheet::begin(number_at(piece, 2));
    for i in from..to {
        sheet.add(fact_at(piece, i));
    }
    sheet.end()
}

// What mending keeps from piece to piece: what is carried, whether the stretch has begun, and how many bytes are put.
#[derive(Clone, Copy)]
pub struct State {
    pub carried: Carried,
    pub begun: bool,
    pub put: usize,
}

// How far the records of a block stay: all of them where a flagged one comes later, or where none is past the last flagged one.
fn stay_to(rest: &[u8], held: Held) -> usize
    ensures { (f : Before) → Carries f held.carried → result ≡ stay_to (flagged_ahead f (pieces rest.now)) held }
{
    if held.last == held.records || flagged_ahead(rest, held.carried) {
        return held.records;
    }
    held.last
}

// A line of the list: a word and a count.
fn put_line(list: &mut [u32], place: usize, word: u32, count: u32)
    requires { 2 * place + 2 ≤ length list.old }
    ensures { list.new ≡ sets list.old (2 * place) (word ∷ count ∷ []) }
{
    let at = 2 * place;
    list[at..at + 2].copy_from_slice(&[word, count]);
}

// A block that stays, with the rest of the card behind it: put behind those that are there.
fn put_held(piece: &[u8], rest: &[u8], held: Held, put: usize, out: &mut [u8]) -> usize
    requires { Whole piece.now held × (put + 512 ≤ length out.old) }
    ensures { (f : Before) → Carries f held.carried → PutHeld (flagged_ahead f (pieces rest.now)) piece.now held put out.old out.new result }
{
    let to = stay_to(rest, held);
    copy_block(&kept_block(piece, held.from, to), out, put);
    to
}

// One piece, with the rest of the card behind it: weighed, put where it stays, and listed.
fn turn(
    piece: &[u8],
    rest: &[u8],
    place: usize,
    s: State,
    out: &mut [u8],
    list: &mut [u32],
) -> State
    requires { Ready piece.now rest.now place s out.old list.old }
    ensures { Turns piece.now rest.now place s out.old list.old result out.new list.new }
{
    match weigh(piece, s.carried, s.begun) {
        Err(why) => {
            put_line(list, place, why as u32, 0);
            s
        }
        Ok(held) => {
            let to = put_held(piece, rest, held, s.put, out);
            put_line(list, place, 0, (held.records - (to - held.from)) as u32);
            State {
                carried: held.carried,
                begun: held.begun,
                put: s.put + 512,
            }
        }
    }
}

// Mends a card, and answers the count of bytes: `out` has room for the card, and `list` for two numbers a piece, or nothing is written.
pub fn mend(card: &[u8], out: &mut [u8], list: &mut [u32]) -> Option<usize>
    ensures { MendsTo card.now out.old list.old result out.new list.new }
{
    if out.len() < card.len() || list.len() / 2 < card.len().div_ceil(512) {
        return None;
    }
    let mut s = State {
        carried: card_block::begun(),
        begun: true,
        put: 0,
    };
    for (place, piece) in card.chunks(512).enumerate() {
        let past = 512 * place + piece.len();
        s = turn(piece, &card[past..], place, s, out, list);
    }
    Some(s.put)
}
