// A rule typed as text, from standard input or from a file: its rows as the kiosk's `r` lines, or with `-n` its names, or a refusal in plain
// words with the text and a caret under its place. One line end after the text is left out. The first argument names a file that is written only
// where all went well; the script ./rule hands one over and turns it into a status.
#![tactic(auto)]

mod refusals;
mod showing;

use crate::refusals::explain;
use crate::showing::{Page, show_names, show_rows};
use card_text::{Said, Streams, argument, done, given, open_read, read_full, say, write_out};
use std::env::Env;
use std::fs::File;
use std::io::{Cursor, Read};
use std::rt::Files;
use translate::translate;

// Translates a text, and writes its rows, or its names where they are asked for.
fn answer(streams: Streams, text: &[u8], named: bool) -> Result<(), Said> {
    let mut rows = [0u32; 576];
    match translate(text, &mut rows) {
        Err(refusal) => {
            explain(streams.stderr, text, refusal);
            Err(Said)
        }
        Ok(translation) => {
            let mut page: Page = Cursor::new([0; 8192]);
            // A page has room for all rows, and for all names of a text.
            let _ = if named {
                show_names(&mut page, text, &translation)
            } else {
                show_rows(&mut page, &rows, translation.rows)
            };
            write_out(streams, "rule", &mut page)
        }
    }
}

// Reads a text; a longer one than any right text is known by its first bytes.
fn from_file<R: Read>(file: &mut R, streams: Streams, named: bool) -> Result<(), Said> {
    let mut buf = [0u8; 8192];
    let text = read_full(file, &mut buf);
    answer(streams, text.strip_suffix(b"\n").unwrap_or(text), named)
}

// Reads the text of standard input.
fn from_input(streams: Streams, named: bool) -> Result<(), Said> {
    let mut stdin = streams.stdin;
    from_file(&mut stdin, streams, named)
}

// Says how the program is used.
fn usage(streams: Streams) -> Result<(), Said> {
    say(streams.stderr, b"use: rule [-n] < TEXT | rule [-n] FILE\n");
    Err(Said)
}

// The file that an argument names.
fn from_named<R: Env + Files<File = File>>(
    rt: &R,
    streams: Streams,
    place: usize,
    named: bool,
) -> Result<(), Said> {
    let mut words = [0u8; 4096];
    let Some(name) = argument(rt, place, &mut words) else {
        return usage(streams);
    };
    let Ok(opened) = open_read(rt, name) else {
        say(streams.stderr, b"rule: the file cannot be read\n");
        return Err(Said);
    };
    let mut file = opened;
    from_file(&mut file, streams, named)
}

// The file that the last argument names, or standard input; `-n` before it asks for the names.
fn run<R: Env + Files<File = File>>(rt: &R, streams: Streams) -> Result<(), Said> {
    if given(rt, 1) && !given(rt, 2) {
        return from_input(streams, false);
    }
    let mut words = [0u8; 4096];
    let Some(word) = argument(rt, 2, &mut words) else {
        return usage(streams);
    };
    let named = word == b"-n".as_slice();
    match (named, given(rt, 3), given(rt, 4)) {
        (true, false, _) => from_input(streams, true),
        (false, false, _) => from_named(rt, streams, 2, false),
        (true, true, false) => from_named(rt, streams, 3, true),
        _ => usage(streams),
    }
}

fn main(rt: HostRuntime) {
    let streams = Streams {
        stdin: rt.stdin(),
        stdout: rt.stdout(),
        stderr: rt.stderr(),
    };
    if run(&rt, streams).is_ok() {
        done(&rt);
    }
}
