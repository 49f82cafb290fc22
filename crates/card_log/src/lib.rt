// A log written on a card: records in rows of seven numbers, each its stamp, its predicate, the count of its values, three values, and 1 where it
// is the last of its moment. What rows say is in specs/Rows.antt, what `write` leaves in specs/Logging.antt. Assumes nothing.
#![tactic(auto)]

ghost use Rattle.std.specs.Prelude.{◌≡◌, ◌/◌, ◌≤◌, length, get_or};
ghost use Rattle.cards.specs.Blocks.{block_bytes};
ghost use Rattle.cards.specs.Counting.{closed};
ghost use Rattle.card_records.specs.Facts.{record_from};
ghost use Rattle.card_writer.specs.Sheets.{block_with};
ghost use Rattle.card_log.specs.Rows.{row_record, rows_in, right_from};
ghost use Rattle.card_log.specs.Logging.{WritesTo};

use card_block::moments::went_on;
use card_records::Fact;
use card_writer::{Sheet, copy_block};

// Why nothing is written: the rows are no moments, or there is no room.
#[derive(Clone, Copy, PartialEq, Eq)]
pub enum WriteError {
    Wrong,
    NoRoom,
}

// A record has at most 3 values.
const VALUES: u32 = 3;

// The record of a row.
fn fact_of(row: &[u32]) -> Fact
    requires { length row.now ≡ 7 }
    ensures result_value { record_from result ≡ row_record row.now }
    ensures count_value { result.count ≡ get_or row.now 2 0 }
{
    Fact {
        stamp: row[0],
        predicate: row[1],
        count: row[2],
        values: [row[3], row[4], row[5]],
        last: row[6] == 1,
    }
}

// The rows are moments: at most three values, at most eight records of one stamp, and none is open at the end.
fn rows_right(rows: &[u32]) -> bool
    ensures { result ≡ right_from closed (length rows.now / 7) rows.now }
{
    let mut held = None;
    for row in rows.chunks_exact(7) {
        let f = fact_of(row);
        if VALUES < f.count {
            return false;
        }
        let Ok(next) = went_on(held, f.stamp, f.last) else {
            return false;
        };
        held = next;
    }
    held.is_none()
}

// A block with at most 21 rows.
fn block_with_rows(rows: &[u32], number: u32) -> [u8; 512]
    requires { length rows.now ≤ 147 }
    ensures { result ≡ block_bytes (block_with number (rows_in rows.now)) }
{
    let mut sheet = Sheet::begin(number);
    for row in rows.chunks_exact(7) {
        sheet.add(fact_of(row));
    }
    sheet.end()
}

// Writes the rows as a card, and answers the count of bytes; nothing is written where they are no moments, or where there is no room.
pub fn write(rows: &[u32], out: &mut [u8]) -> Result<usize, WriteError>
    ensures { WritesTo rows.now out.old result out.new }
{
    let blocks = (rows.len() / 7).div_ceil(21);
    if rows.len() % 7 != 0 || 4294967296 < blocks || !rows_right(rows) {
        return Err(WriteError::Wrong);
    }
    if out.len() / 512 < blocks {
        return Err(WriteError::NoRoom);
    }
    for (b, part) in rows.chunks(147).enumerate() {
        copy_block(&block_with_rows(part, b as u32), out, 512 * b);
    }
    Ok(512 * blocks)
}
