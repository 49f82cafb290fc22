// The first pass over a card: the first bad block, named by its place and its reason.
use card_block::{Carried, Reason};
use card_reader::Stop;
use card_text::{Said, at_end, fail, progress, progress_end, read_full};
use std::fs::File;
use std::io::{Stderr, Write};

// Why a card is refused: the block at a place is bad, or the file cannot be read.
#[derive(Clone, Copy)]
enum Refusal {
    Bad(u64, Reason),
    Unread,
}

// The reader under way: what is carried, the place of the next piece, and that of the last block with a record.
#[derive(Clone, Copy)]
struct Reading {
    carried: Carried,
    place: u64,
    held: u64,
}

impl Reading {
    // One piece.
    fn check_piece(&mut self, stderr: Stderr, piece: &[u8]) -> Result<(), Refusal> {
        match card_reader::read_piece(piece, self.carried) {
            Err(Stop::Goes(why)) => Err(Refusal::Bad(self.place, why)),
            Err(Stop::Open) => Err(Refusal::Bad(self.held, Reason::Shape)),
            Ok(onward) => {
                progress(stderr, self.place);
                if onward.records != 0 {
                    self.held = self.place;
                }
                self.carried = onward.carried;
                self.place = self.place.wrapping_add(1);
                Ok(())
            }
        }
    }

    // The end of the card: no moment is open there.
    fn end(&self) -> Result<(), Refusal> {
        if self.carried.moment.is_some() {
            return Err(Refusal::Bad(self.held, Reason::Shape));
        }
        Ok(())
    }
}

// The whole file. A proved loop has to end, and nothing says that a file does, so the turns are counted by a number that none uses up.
fn check_all(file: &mut File, stderr: Stderr) -> Result<(), Refusal> {
    let mut reading = Reading {
        carried: card_block::begun(),
        place: 0,
        held: 0,
    };
    let mut part = [0u8; 65536];
    for _ in 0..u64::MAX {
        let read = read_full(file, &mut part);
        if read.is_empty() {
            if !at_end(file) {
                return Err(Refusal::Unread);
            }
            return reading.end();
        }
        for piece in read.chunks(512) {
            reading.check_piece(stderr, piece)?;
        }
    }
    Err(Refusal::Unread)
}

// The file is a card that the reader takes; or the refusal is said.
pub fn fine(file: &mut File, mut stderr: Stderr, name: &[u8]) -> Result<(), Said> {
    let checked = check_all(file, stderr);
    progress_end(stderr);
    match checked {
        Ok(()) => Ok(()),
        Err(Refusal::Bad(place, why)) => {
            fail(stderr, name, b": block ");
            let _ = writeln!(stderr, "{place} is bad: {why}");
            Err(Said)
        }
        Err(Refusal::Unread) => {
            fail(stderr, name, b" cannot be read\n");
            Err(Said)
        }
    }
}
