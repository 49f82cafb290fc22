// `card mend IN OUT`: the mended card in OUT, which must not be there yet, and the list of blocks on standard output. IN is read in order, and
// from a block whose records end in an open moment the pieces to come are looked at, so IN is a file and no pipe. No more than a part is held.
#![tactic(auto)]

use card_block::Carried;
use card_mender::Held;
use card_mender::looking::look;
use card_text::{
    Page, Said, Streams, at_end, create, fail, open_read, opened, page, progress, progress_end,
    read_full, turn, unlink, write_out,
};
use std::fs::File;
use std::io::{Error, Write};
use std::ops::ControlFlow;
use std::os::unix::fs::FileExt;
use std::rt::Files;

// Mending cannot go on.
#[derive(Clone, Copy)]
struct Stop;

impl From<Said> for Stop {
    fn from(_: Said) -> Stop {
        Stop
    }
}

impl From<Error> for Stop {
    fn from(_: Error) -> Stop {
        Stop
    }
}

// The places that a file may have: 2^40 blocks.
const PLACES: u64 = 1099511627776;

// Whether a flagged record comes from a piece of the file on, before a gap.
fn flagged_ahead(file: &File, from: u64, carried: Carried) -> Result<bool, Stop> {
    let mut carries = carried;
    let mut piece = [0u8; 512];
    for place in from..PLACES {
        let n = file.read_at(&mut piece, place * 512)?;
        if n == 0 {
            return Ok(false);
        }
        match look(&piece[..n], carries) {
            ControlFlow::Break(comes) => return Ok(comes),
            ControlFlow::Continue(next) => carries = next,
        }
    }
    Ok(false)
}

// Mending under way: the file that is mended, the one that is written, the page of the list, what is carried, whether the stretch has begun, and
// the place of the next piece.
#[derive(Drop)]
struct Mending<'a> {
    file: &'a File,
    to: &'a mut File,
    streams: Streams,
    page: Page,
    carried: Carried,
    begun: bool,
    place: u64,
}

impl Mending<'_> {
    // How far the records of a block stay.
    fn stay_to(&self, held: Held) -> Result<usize, Stop> {
        if held.last == held.records {
            return Ok(held.records);
        }
        if flagged_ahead(self.file, self.place.wrapping_add(1), held.carried)? {
            return Ok(held.records);
        }
        Ok(held.last)
    }

    // Writes a block with its records from one place up to another.
    fn write_kept(&mut self, piece: &[u8], from: usize, end: usize) -> Result<(), Stop> {
        if piece.len() != 512 || 21 < end || end < from {
            return Err(Stop);
        }
        let block = card_mender::kept_block(piece, from, end);
        self.to.write_all(&block)?;
        Ok(())
    }

    // One piece: weighed, written where it stays, and listed.
    fn mend_piece(&mut self, piece: &[u8]) -> Result<(), Stop> {
        let place = self.place;
        progress(self.streams.stderr, place);
        // A page has room for one more line.
        match card_mender::weigh(piece, self.carried, self.begun) {
            Err(why) => {
                let _ = writeln!(self.page, "{place} {why} 0");
            }
            Ok(held) => {
                let end = self.stay_to(held)?;
                self.write_kept(piece, held.from, end)?;
                let dropped = held.records.saturating_sub(end.saturating_sub(held.from));
                let _ = writeln!(self.page, "{place} kept {dropped}");
                self.carried = held.carried;
                self.begun = held.begun;
            }
        }
        self.place = place.wrapping_add(1);
        turn(self.streams, "card", &mut self.page)?;
        Ok(())
    }

    // The whole file; the list's last lines come at the end.
    fn mend_all(&mut self) -> Result<(), Stop> {
        let mut file = self.file;
        let mut part = [0u8; 65536];
        for _ in 0..u64::MAX {
            let read = read_full(&mut file, &mut part);
            if read.is_empty() {
                if !at_end(&mut file) {
                    return Err(Stop);
                }
                write_out(self.streams, "card", &mut self.page)?;
                return Ok(());
            }
            for piece in read.chunks(512) {
                self.mend_piece(piece)?;
            }
        }
        Err(Stop)
    }
}

// Mends an open file into another; where that goes well, the mended card is in its place.
fn mend_into(file: &File, to: &mut File, streams: Streams) -> Result<(), Stop> {
    let mut mending = Mending {
        file,
        to,
        streams,
        page: page(),
        carried: card_block::begun(),
        begun: true,
        place: 0,
    };
    let mended = mending.mend_all();
    progress_end(streams.stderr);
    // The system may tell only now that what was written found no room.
    to.sync_all()?;
    mended
}

// Mends one file into another, which must not be there yet.
pub fn mend<R: Files<File = File>>(
    rt: &R,
    streams: Streams,
    from: &[u8],
    into: &[u8],
) -> Result<(), Said> {
    let stderr = streams.stderr;
    let file = opened(stderr, from, open_read(rt, from))?;
    let mut to = opened(stderr, into, create(rt, into))?;
    if mend_into(&file, &mut to, streams).is_err() {
        fail(
            stderr,
            from,
            b" cannot be mended: it must be a file that can be read twice, and the mended card must find room\n",
        );
        let _ = unlink(rt, into);
        return Err(Said);
    }
    Ok(())
}
