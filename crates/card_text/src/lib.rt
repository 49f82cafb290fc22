// What the programs share of reading and writing: their streams, a page of text that is written out in time, the files that a path names, and
// what is said where one is refused. What finds no room on a page is left out; the callers write a page out before it is full.
#![tactic(auto)]

ghost use Rattle.std.specs.Prelude.{◌≤◌, length};

use std::env::{Env, FillError};
use std::fs;
use std::fs::{File, OpenOptions};
use std::io::{Cursor, Error, ErrorKind, IsTerminal, Read, Stderr, Stdin, Stdout, Write};
use std::rt::Files;

// Something is wrong, and standard error says what.
#[derive(Clone, Copy)]
pub struct Said;

// The program's three streams.
#[derive(Clone, Copy)]
pub struct Streams {
    pub stdin: Stdin,
    pub stdout: Stdout,
    pub stderr: Stderr,
}

// Text for standard output that waits to be written.
pub type Page = Cursor<[u8; 65536]>;

// From so many bytes on a page is written out: no block and no line takes as many more as a page has.
const FULL: u64 = 60000;

// An empty page.
pub fn page() -> Page {
    Cursor::new([0; 65536])
}

// What stands on a page.
pub fn written<const N: usize>(page: &Cursor<[u8; N]>) -> &[u8] {
    let past = (page.position() as usize).min(N);
    &page.get_ref()[..past]
}

// Writes a page of the program to standard output and empties it, or says that it cannot.
pub fn write_out<const N: usize>(
    streams: Streams,
    program: &str,
    page: &mut Cursor<[u8; N]>,
) -> Result<(), Said> {
    let mut stdout = streams.stdout;
    if stdout.write_all(written(page)).is_err() {
        let mut stderr = streams.stderr;
        let _ = writeln!(stderr, "{program}: standard output cannot be written");
        return Err(Said);
    }
    page.set_position(0);
    Ok(())
}

// Writes the page out where it is full.
pub fn turn(streams: Streams, program: &str, page: &mut Page) -> Result<(), Said> {
    if page.position() < FULL {
        return Ok(());
    }
    write_out(streams, program, page)
}

// Reads until the slice is full, the input ends or a read fails, and answers what was read: the front of the slice.
pub fn read_full<'a, R: Read>(from: &mut R, buf: &'a mut [u8]) -> &'a [u8]
    ensures { length result.now ≤ length buf.old }
{
    let mut done = 0;
    while done < buf.len() {
        match from.read(&mut buf[done..]) {
            Ok(0) | Err(_) => break,
            Ok(n) => done += n,
        }
    }
    &buf[..done]
}

// Where nothing more is read: whether the input came to its end. A read that fails looks like the end.
pub fn at_end<R: Read>(from: &mut R) -> bool {
    let mut one = [0u8; 1];
    from.read(&mut one).is_ok()
}

// Writes to standard error.
pub fn say(mut stderr: Stderr, bytes: &[u8]) {
    let _ = stderr.write_all(bytes);
}

// Says that something cannot be done with a file.
pub fn fail(stderr: Stderr, name: &[u8], what: &[u8]) {
    say(stderr, b"card: ");
    say(stderr, name);
    say(stderr, what);
}

// Every 8,192 blocks, the count so far, where standard error is a terminal.
pub fn progress(mut stderr: Stderr, blocks: u64) {
    if blocks % 8192 == 0 && stderr.is_terminal() {
        let _ = write!(stderr, "\r{blocks} blocks");
    }
}

// Ends the line of the count.
pub fn progress_end(stderr: Stderr) {
    if stderr.is_terminal() {
        say(stderr, b"\r               \r");
    }
}

// The program's argument at a place is there; its own name is at place 0.
pub fn given<R: Env>(rt: &R, place: usize) -> bool {
    let mut none = [0u8; 0];
    !matches!(rt.arg(place, &mut none), Err(FillError::NotPresent))
}

// The program's argument at a place.
pub fn argument<'a, R: Env>(rt: &R, place: usize, words: &'a mut [u8; 4096]) -> Option<&'a [u8]> {
    let n = rt.arg(place, words).ok()?;
    Some(&words[..n])
}

// The path that a name is. A path is text: what is no UTF-8 names no file.
fn path(name: &[u8]) -> std::io::Result<&str> {
    str::from_utf8(name).map_err(|_| Error::from(ErrorKind::InvalidFilename))
}

// Opens the file of this name to read it.
pub fn open_read<R: Files>(rt: &R, name: &[u8]) -> std::io::Result<R::File> {
    fs::open(rt, path(name)?)
}

// Makes the file of this name, which must not be there yet, and opens it to write it.
pub fn create<R: Files>(rt: &R, name: &[u8]) -> std::io::Result<R::File> {
    OpenOptions::new()
        .write(true)
        .create_new(true)
        .open(rt, path(name)?)
}

// Takes away the file of this name.
pub fn unlink<R: Files>(rt: &R, name: &[u8]) -> std::io::Result<()> {
    fs::remove_file(rt, path(name)?)
}

// The opened file; or says why the system refuses the file of this name.
pub fn opened(stderr: Stderr, name: &[u8], file: std::io::Result<File>) -> Result<File, Said> {
    match file {
        Ok(file) => Ok(file),
        Err(why) => {
            refused(stderr, name, why);
            Err(Said)
        }
    }
}

// Notes that all went well: empties the file that the first argument names, or makes it where it is missing, and writes a line.
pub fn done<R: Env + Files<File = File>>(rt: &R) {
    let mut words = [0u8; 4096];
    if let Some(name) = argument(rt, 1, &mut words)
        && let Ok(path) = path(name)
        && let Ok(made) = fs::create(rt, path)
    {
        let mut to = made;
        let _ = to.write_all(b"done\n");
    }
}

// Says why the system refuses a file: its name, a colon and the system's words for the error, without the number that std writes behind them.
fn refused(stderr: Stderr, name: &[u8], why: Error) {
    let mut text = Cursor::new([0u8; 128]);
    let _ = write!(text, "{why}");
    let all = text.into_inner();
    say(stderr, name);
    say(stderr, b": ");
    say(stderr, &all[..words(&all)]);
    say(stderr, b"\n");
}

// How long the words are that stand in the buffer: up to its zeros, or up to the space and the last parenthesis, where there is one.
fn words(all: &[u8; 128]) -> usize
    ensures { result ≤ 128 }
{
    let end = all.iter().position(|b| *b == 0).unwrap_or(128);
    match all[..end].iter().rposition(|b| *b == b'(') {
        Some(place) if 0 < place => place - 1,
        _ => end,
    }
}
