// `card write FILE`: lines of standard input, one for each moment, as a card in FILE, which must not be there yet. A line is a stamp, a colon,
// and the facts, each a predicate and its values after spaces, with a comma between facts: `5: 1 258, 2 7 8`.
#![tactic(auto)]

mod parsing; // parsing.rt: numbers and facts of a line

use crate::parsing::{fact, number};
use card_records::Fact;
use card_text::{Said, Streams, create, fail, opened, unlink, written};
use card_writer::Sheet;
use std::fs::File;
use std::io::{Cursor, Read, Stderr, Write};
use std::rt::Files;

// The line that is being read, as far as it has come.
type Text = Cursor<[u8; 512]>;

// The card under way: where its blocks go, the block that has records and is not written yet, its number, and the number of the line.
#[derive(Drop)]
struct Writing<'a> {
    to: &'a mut File,
    stderr: Stderr,
    sheet: Option<Sheet>,
    number: u64,
    line: u64,
}

impl Writing<'_> {
    // Says what is wrong, and in which line.
    fn refused<T>(&self, what: &str) -> Result<T, Said> {
        let mut stderr = self.stderr;
        let line = self.line;
        let _ = writeln!(stderr, "card: line {line}{what}");
        Err(Said)
    }

    // Ends a block and writes it.
    fn write_block(&mut self, sheet: Sheet) -> Result<(), Said> {
        let block = sheet.end();
        if self.to.write_all(&block).is_err() {
            return self.refused(": the card cannot be written");
        }
        Ok(())
    }

    // One record more; a block with 21 is written first.
    fn add(&mut self, f: Fact) -> Result<(), Said> {
        let full = matches!(&self.sheet, Some(sheet) if 21 <= sheet.records);
        if full && let Some(sheet) = self.sheet {
            self.write_block(sheet)?;
            self.sheet = None;
            self.number = self.number.wrapping_add(1);
        }
        let Ok(number) = u32::try_from(self.number) else {
            return self.refused(": the card has more than 2^32 blocks");
        };
        match &mut self.sheet {
            Some(sheet) if sheet.records < 21 => sheet.add(f),
            _ => {
                let mut sheet = Sheet::begin(number);
                sheet.add(f);
                self.sheet = Some(sheet);
            }
        }
        Ok(())
    }

    // The facts of a moment: 1 to 8.
    fn add_facts(&mut self, facts: &[u8], stamp: u32) -> Result<(), Said> {
        let mut rest = facts;
        for _ in 0..8 {
            let Some((f, next)) = fact(rest, stamp) else {
                return self.refused(" is no moment");
            };
            self.add(f)?;
            if f.last {
                return Ok(());
            }
            rest = next;
        }
        self.refused(" has more than 8 facts")
    }

    // The line is whole: a stamp, a colon and a space, and the facts.
    fn end_line(&mut self, text: &mut Text) -> Result<(), Said> {
        match number(written(text)) {
            Some((stamp, [b':', b' ', facts @ ..])) if !facts.is_empty() => {
                self.add_facts(facts, stamp)?;
            }
            _ => return self.refused(" is no moment"),
        }
        text.set_position(0);
        self.line = self.line.wrapping_add(1);
        Ok(())
    }

    // Bytes of a line.
    fn hold(&self, text: &mut Text, bytes: &[u8]) -> Result<(), Said> {
        if text.write_all(bytes).is_err() {
            return self.refused(" is too long");
        }
        Ok(())
    }

    // A part of the input.
    fn add_part(&mut self, text: &mut Text, part: &[u8]) -> Result<(), Said> {
        let mut rest = part;
        while let Some(end) = rest.iter().position(|b| *b == b'\n') {
            self.hold(text, &rest[..end])?;
            self.end_line(text)?;
            rest = &rest[end + 1..];
        }
        self.hold(text, rest)
    }

    // What is left at the end of the input: a line without its line end, and a block that is not full.
    fn end(&mut self, text: &mut Text) -> Result<(), Said> {
        if text.position() != 0 {
            self.end_line(text)?;
        }
        match self.sheet {
            Some(sheet) => self.write_block(sheet),
            None => Ok(()),
        }
    }
}

// The whole input.
fn write_all(streams: Streams, to: &mut File) -> Result<(), Said> {
    let mut stdin = streams.stdin;
    let mut writing = Writing {
        to,
        stderr: streams.stderr,
        sheet: None,
        number: 0,
        line: 1,
    };
    let mut text: Text = Cursor::new([0; 512]);
    let mut part = [0u8; 65536];
    for _ in 0..u64::MAX {
        match stdin.read(&mut part) {
            Ok(0) => return writing.end(&mut text),
            Ok(n) => writing.add_part(&mut text, &part[..n])?,
            Err(_) => return writing.refused(": standard input cannot be read"),
        }
    }
    Err(Said)
}

// Writes the lines into the open file of this name; what is wrong is said.
fn write_into(streams: Streams, to: &mut File, name: &[u8]) -> Result<(), Said> {
    write_all(streams, to)?;
    // The system may tell only now that what was written found no room.
    if to.sync_all().is_err() {
        fail(streams.stderr, name, b" cannot be written\n");
        return Err(Said);
    }
    Ok(())
}

// Writes the card of this name.
pub fn write<R: Files<File = File>>(rt: &R, streams: Streams, name: &[u8]) -> Result<(), Said> {
    let mut to = opened(streams.stderr, name, create(rt, name))?;
    let written = write_into(streams, &mut to, name);
    if written.is_err() {
        let _ = unlink(rt, name);
    }
    written
}
