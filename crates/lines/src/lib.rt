// One line of the program's input, without its line end, read as an enum. What each line is written as, and what it is to read one, is in
// specs/Format.antt; what the parts of the reader promise is in specs/Parts.antt. Assumes nothing: any bytes, of any length, are read.
#![tactic(auto)]

ghost use Rattle.std.specs.Prelude.{◌≡◌, ◌≤◌, length, drop};
ghost use Rattle.lines.specs.Format.{Reads};
ghost use Rattle.lines.specs.Parts.{IsToken, Found, LedBy, Unlettered};

// The largest number of the input, 2^32 − 1.
const LARGEST: u64 = 4294967295;

// What a line says. Which kind of line may come when is the program's business.
#[derive(Clone, Copy)]
pub enum Line {
    Sizes {
        k: u32,
        c: u32,
    },
    // The nine numbers of a row.
    Row([u32; 9]),
    // The count says how many of the four values there are; those past it are 0.
    Event {
        predicate: u32,
        count: u32,
        values: [u32; 4],
    },
}

// A number of the line, and the place past it.
#[derive(Clone, Copy)]
struct Token {
    number: u32,
    next: usize,
}

// The numbers from a place to the line's end: how many, and nine places for them, of which those past the count are 0.
#[derive(Clone, Copy)]
struct Numbers {
    count: usize,
    all: [u32; 9],
}

// The number whose first digit stands at `at`, if one stands there.
fn number_at(line: &[u8], at: usize) -> Option<Token>
    ensures { IsToken line.now at result }
{
    let first = *line.get(at)?;
    if !first.is_ascii_digit() {
        return None;
    }
    let mut value = u64::from(first - b'0');
    for i in at + 1..line.len() {
        let b = line[i];
        if !b.is_ascii_digit() {
            return Some(Token {
                number: value as u32,
                next: i,
            });
        }
        // A leading zero.
        if value == 0 {
            return None;
        }
        let more = value * 10 + u64::from(b - b'0');
        if LARGEST < more {
            return None;
        }
        value = more;
    }
    Some(Token {
        number: value as u32,
        next: line.len(),
    })
}

// The numbers from `at` to the line's end, each after one space, nine at most; or none where something else stands there.
fn numbers_from(line: &[u8], at: usize) -> Option<Numbers>
    requires { at ≤ length line.now }
    ensures { Found (drop at line.now) result }
{
    let mut all = [0; 9];
    let mut count = 0;
    let mut i = at;
    while i < line.len() {
        if line[i] != b' ' {
            return None;
        }
        if count == 9 {
            return None;
        }
        let token = number_at(line, i + 1)?;
        all[count] = token.number;
        count += 1;
        i = token.next;
    }
    Some(Numbers { count, all })
}

// The sizes: a line that begins with neither `r` nor `e`.
fn sizes_line(line: &[u8]) -> Option<Line>
    requires { Unlettered line.now }
    ensures { Reads line.now result }
{
    let first = number_at(line, 0)?;
    let rest = numbers_from(line, first.next)?;
    if rest.count != 1 {
        return None;
    }
    let c = rest.all[0];
    if 512 < c {
        return None;
    }
    Some(Line::Sizes { k: first.number, c })
}

// A row: a line that begins with `r`.
fn row_line(line: &[u8]) -> Option<Line>
    requires { LedBy line.now 114 }
    ensures { Reads line.now result }
{
    let rest = numbers_from(line, 1)?;
    if rest.count != 9 {
        return None;
    }
    Some(Line::Row(rest.all))
}

// An event: a line that begins with `e`.
fn event_line(line: &[u8]) -> Option<Line>
    requires { LedBy line.now 101 }
    ensures { Reads line.now result }
{
    let rest = numbers_from(line, 1)?;
    let count = rest.count;
    if count == 0 {
        return None;
    }
    if 5 < count {
        return None;
    }
    let [predicate, a, b, c, d, ..] = rest.all;
    Some(Line::Event {
        predicate,
        count: (count - 1) as u32,
        values: [a, b, c, d],
    })
}

// The line that these bytes are, or none where they are none.
pub fn read_line(line: &[u8]) -> Option<Line>
    ensures { Reads line.now result }
{
    match line.first()? {
        b'r' => row_line(line),
        b'e' => event_line(line),
        _ => sizes_line(line),
    }
}
