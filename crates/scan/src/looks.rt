// What the scan keeps between two bytes, and one byte's step. It stops at a byte that no rule text can have there.
ghost use Rattle.std.specs.Prelude.{◌≡◌, ◌<◌, ◌≤◌, ◌+◌, ◌*◌, length};
ghost use Rattle.spelling.specs.Kinds.{kind_code};
ghost use Rattle.spelling.specs.Modes.{mode_code};
ghost use Rattle.scan.specs.Looks.{Sound, GivesTo, BeginsTo, StepsTo, MayEnd, Joins, Grows, Leads};
ghost use Rattle.scan.specs.Pending.{pending_code, from_code};

use spelling::bytes::{Beginning, class_of, is_word_byte};
use spelling::kinds::Kind;
use spelling::modes::{Mode, next_mode};
use spelling::words::word_of;

// What is pending of a word: nothing, letters from a place on, digits, or `-`.
#[derive(Clone, Copy)]
pub enum Pending {
    Nothing,
    Letters(usize),
    Digits,
    Dash,
}

// What must come, and how many parentheses are open.
#[derive(Clone, Copy)]
pub struct Shape {
    pub mode: Mode,
    pub depth: usize,
}

// What the scan keeps between two bytes.
#[derive(Clone, Copy)]
pub struct Look {
    pub pending: Pending,
    pub shape: Shape,
}

// A word comes: the shape after it, or none where no rule text can go on.
pub fn give(shape: Shape, word: Kind) -> Option<Shape>
    requires { shape.depth < 18446744073709551615 }
    ensures { GivesTo (mode_code shape.mode) shape.depth (kind_code word) result }
{
    let mode = next_mode(shape.mode, word);
    if mode == Mode::Nothing {
        return None;
    }
    let depth = shape.depth;
    match word {
        Kind::Open => {
            if mode == Mode::Operand {
                return Some(Shape {
                    mode,
                    depth: depth + 1,
                });
            }
            Some(Shape { mode, depth })
        }
        Kind::Close => {
            if shape.mode == Mode::AfterArgument {
                return Some(Shape { mode, depth });
            }
            if depth == 0 {
                return None;
            }
            Some(Shape {
                mode,
                depth: depth - 1,
            })
        }
        _ => Some(Shape { mode, depth }),
    }
}

// Whether an operator may come.
fn joins(mode: Mode) -> bool
    ensures { Joins (mode_code mode) result }
{
    matches!(mode, Mode::Operator | Mode::AfterName)
}

// Whether a word of letters may come, of one letter or more.
fn grows(mode: Mode) -> bool
    ensures { Grows (mode_code mode) result }
{
    matches!(mode, Mode::Operand | Mode::Variable | Mode::Argument)
}

// Whether a word may begin with the letter: where an operator may come, the letter is `S`.
fn leads(mode: Mode, b: u8) -> bool
    ensures { Leads (mode_code mode) b result }
{
    grows(mode) || b == b'S' && joins(mode)
}

// Whether the end may come.
pub fn may_end(shape: Shape) -> bool
    ensures { MayEnd (mode_code shape.mode) shape.depth result }
{
    shape.depth == 0 && joins(shape.mode)
}

// A byte comes where nothing is pending.
fn begin(text: &[u8], at: usize, shape: Shape) -> Option<Look>
    requires { (at < length text.now) × (mode_code shape.mode ≡ 7 → ⊥) × (shape.depth ≤ 2 * at + 1) }
    ensures { BeginsTo text.now at (mode_code shape.mode) shape.depth result }
{
    let b = text[at];
    let word = match class_of(b) {
        Beginning::Word(word) => word,
        Beginning::Space => {
            return Some(Look {
                pending: Pending::Nothing,
                shape,
            });
        }
        Beginning::Foreign => return None,
    };
    match word {
        Kind::Name => {
            if leads(shape.mode, b) {
                return Some(Look {
                    pending: Pending::Letters(at),
                    shape,
                });
            }
            None
        }
        Kind::Constant => {
            if shape.mode == Mode::Argument {
                return Some(Look {
                    pending: Pending::Digits,
                    shape,
                });
            }
            None
        }
        Kind::Implies => {
            if joins(shape.mode) {
                return Some(Look {
                    pending: Pending::Dash,
                    shape,
                });
            }
            None
        }
        _ => {
            let after = give(shape, word)?;
            Some(Look {
                pending: Pending::Nothing,
                shape: after,
            })
        }
    }
}

// A byte comes after letters.
fn after_letters(text: &[u8], at: usize, from: usize, shape: Shape) -> Option<Look>
    requires { (at < length text.now) × Sound at from (mode_code shape.mode) shape.depth }
    ensures { StepsTo text.now at 1 from (mode_code shape.mode) shape.depth result }
{
    if is_word_byte(text[at]) {
        if grows(shape.mode) {
            return Some(Look {
                pending: Pending::Letters(from),
                shape,
            });
        }
        return None;
    }
    let after = give(shape, word_of(&text[from..at]))?;
    begin(text, at, after)
}

// A byte comes after digits.
fn after_digits(text: &[u8], at: usize, shape: Shape) -> Option<Look>
    requires { (at < length text.now) × Sound at 0 (mode_code shape.mode) shape.depth }
    ensures { StepsTo text.now at 2 0 (mode_code shape.mode) shape.depth result }
{
    let b = text[at];
    if is_word_byte(b) {
        if b.is_ascii_digit() {
            return Some(Look {
                pending: Pending::Digits,
                shape,
            });
        }
        return None;
    }
    let after = give(shape, Kind::Constant)?;
    begin(text, at, after)
}

// A byte comes: the look after it, or none where no rule text can go on.
pub fn step(text: &[u8], at: usize, l: Look) -> Option<Look>
    requires { (at < length text.now) × Sound at (from_code l.pending) (mode_code l.shape.mode) l.shape.depth }
    ensures { StepsTo text.now at (pending_code l.pending) (from_code l.pending) (mode_code l.shape.mode) l.shape.depth result }
{
    match l.pending {
        Pending::Nothing => begin(text, at, l.shape),
        Pending::Letters(from) => after_letters(text, at, from, l.shape),
        Pending::Digits => after_digits(text, at, l.shape),
        Pending::Dash => {
            if text[at] != b'>' {
                return None;
            }
            let after = give(l.shape, Kind::Implies)?;
            Some(Look {
                pending: Pending::Nothing,
                shape: after,
            })
        }
    }
}
