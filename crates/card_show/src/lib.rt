// `card read FILE`: the moments of a card as lines of text. The card is gone over twice: first for a bad block, so that nothing is written of a
// card that the reader refuses, and then for its moments. No more than a part of the card is held.
#![tactic(auto)]

mod checking; // checking.rt: the first pass, for a bad block

use crate::checking::fine;
use card_block::Carried;
use card_records::{Fact, fact_at};
use card_text::{Page, Said, Streams, open_read, opened, page, read_full, turn, write_out};
use std::fs::File;
use std::io;
use std::io::{Stderr, Write};
use std::rt::Files;

// A record: behind the stamp where it begins a moment, and with a line end where it is the last of its moment.
fn show_record(page: &mut Page, f: Fact, open: bool) -> io::Result<()> {
    let stamp = f.stamp;
    if open {
        write!(page, ", ")?;
    } else {
        write!(page, "{stamp}: ")?;
    }
    let predicate = f.predicate;
    write!(page, "{predicate}")?;
    for value in f.values.iter().take(f.count as usize) {
        write!(page, " {value}")?;
    }
    if f.last {
        writeln!(page)?;
    }
    Ok(())
}

// The text under way: what is carried, and whether a moment is open.
#[derive(Clone, Copy)]
struct Showing {
    carried: Carried,
    open: bool,
}

impl Showing {
    // One piece of a card that the reader takes.
    fn show_piece(&mut self, page: &mut Page, piece: &[u8]) -> io::Result<()> {
        let Ok(onward) = card_reader::read_piece(piece, self.carried) else {
            return Ok(());
        };
        if onward.anew {
            writeln!(page, "anew")?;
        }
        for i in 0..onward.records.min(21) {
            if piece.len() < 30 + 24 * i {
                break;
            }
            let f = fact_at(piece, i);
            show_record(page, f, self.open)?;
            self.open = !f.last;
        }
        self.carried = onward.carried;
        Ok(())
    }
}

// All parts of the file; the last lines come at the end.
fn show_all(file: &mut File, streams: Streams) -> Result<(), Said> {
    let mut page = page();
    let mut showing = Showing {
        carried: card_block::begun(),
        open: false,
    };
    let mut part = [0u8; 65536];
    for _ in 0..u64::MAX {
        let read = read_full(file, &mut part);
        if read.is_empty() {
            return write_out(streams, "card", &mut page);
        }
        for piece in read.chunks(512) {
            // A page has room for one more block.
            let _ = showing.show_piece(&mut page, piece);
            turn(streams, "card", &mut page)?;
        }
    }
    Err(Said)
}

// The card of this name is one that the reader takes; or what is wrong is said. The file is closed again.
fn taken<R: Files<File = File>>(rt: &R, stderr: Stderr, name: &[u8]) -> Result<(), Said> {
    let mut file = opened(stderr, name, open_read(rt, name))?;
    fine(&mut file, stderr, name)
}

// Shows the card of this name. No more than one file is open at a time.
pub fn show<R: Files<File = File>>(rt: &R, streams: Streams, name: &[u8]) -> Result<(), Said> {
    let stderr = streams.stderr;
    taken(rt, stderr, name)?;
    let mut file = opened(stderr, name, open_read(rt, name))?;
    show_all(&mut file, streams)
}
