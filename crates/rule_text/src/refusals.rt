// A refusal in plain words, the text, and a caret under the place.
use card_text::{say, written};
use std::io;
use std::io::{Cursor, Stderr, Write};
use translate::refusals::Refusal;

// What a refusal says.
fn reason(refusal: Refusal) -> &'static str {
    match refusal {
        Refusal::WrongSlice => "the row slice has not 576 numbers",
        Refusal::TooLong => "the text is longer than 4096 bytes",
        Refusal::NoText(_) => "no rule can go on here",
        Refusal::LargeConstant => "a constant is over 4294967295",
        Refusal::ManyArguments => "a predicate has more than 3 arguments",
        Refusal::ManyVariables => "there are more than 4 variables",
        Refusal::TwoCounts => "a predicate stands with two counts of arguments",
        Refusal::FreeVariable => "a variable stands outside of its quantifier",
        Refusal::ManyRows => "there are more than 64 rows",
    }
}

// A byte as it is shown: what is no sign is a question mark, so that the caret stands under its byte.
fn shown(b: u8) -> u8 {
    match b {
        b' '..=b'~' => b,
        _ => b'?',
    }
}

// The text on a line, and a caret under the place.
fn show_place(out: &mut Cursor<[u8; 12288]>, text: &[u8], place: usize) -> io::Result<()> {
    for b in text {
        out.write_all(&[shown(*b)])?;
    }
    writeln!(out)?;
    for _ in 0..place {
        out.write_all(b" ")?;
    }
    writeln!(out, "^")
}

// Says the refusal with its number and place.
pub fn explain(mut stderr: Stderr, text: &[u8], refusal: Refusal) {
    let (number, at) = refusal.number_and_place();
    let reason = reason(refusal);
    let _ = writeln!(stderr, "rule: refused {number} at {at}: {reason}");
    if let Refusal::NoText(place) = refusal {
        let mut out = Cursor::new([0; 12288]);
        if show_place(&mut out, text, place).is_ok() {
            say(stderr, written(&out));
        }
    }
}
