// Refusal 3: whether bytes are a rule text, and if not the first place at which no rule text can go on. What a rule text is, is in the
// crate text. Total: any bytes, of any length. One pass, and no stack: the depth of parentheses is enough. Assumes nothing.
#![tactic(auto)]

mod looks;

ghost use Rattle.std.specs.Prelude.{◌≡◌, ◌<◌, ◌≤◌, length};
ghost use Rattle.spelling.specs.Kinds.{kind_code};
ghost use Rattle.spelling.specs.Modes.{mode_code};
ghost use Rattle.scan.specs.Looks.{Sound, EndsAfter, Ending};
ghost use Rattle.scan.specs.Pending.{pending_code, from_code};
ghost use Rattle.scan.specs.Scanned.{Scanned};

use looks::{Look, Pending, Shape, give, may_end, step};
use spelling::kinds::Kind;
use spelling::modes::Mode;
use spelling::words::word_of;

// The first place at which no rule text can go on.
#[derive(Clone, Copy)]
pub struct Stop {
    pub place: usize,
}

// Whether the text may end after one word more.
fn ends_after(shape: Shape, word: Kind) -> bool
    requires { shape.depth < 18446744073709551615 }
    ensures { EndsAfter (mode_code shape.mode) shape.depth (kind_code word) result }
{
    match give(shape, word) {
        Some(last) => may_end(last),
        None => false,
    }
}

// Whether the text may end after the bytes that the look shows.
fn ends(text: &[u8], l: Look) -> bool
    requires { Sound (length text.now) (from_code l.pending) (mode_code l.shape.mode) l.shape.depth }
    ensures { Ending text.now (pending_code l.pending) (from_code l.pending) (mode_code l.shape.mode) l.shape.depth result }
{
    match l.pending {
        Pending::Nothing => may_end(l.shape),
        Pending::Letters(from) => ends_after(l.shape, word_of(&text[from..])),
        Pending::Digits => ends_after(l.shape, Kind::Constant),
        Pending::Dash => false,
    }
}

pub fn scan(text: &[u8]) -> Result<(), Stop>
    ensures { Scanned text.now result }
{
    let mut l = Look {
        pending: Pending::Nothing,
        shape: Shape {
            mode: Mode::Operand,
            depth: 0,
        },
    };
    for i in 0..text.len() {
        let Some(next) = step(text, i, l) else {
            return Err(Stop { place: i });
        };
        l = next;
    }
    if ends(text, l) {
        return Ok(());
    }
    Err(Stop { place: text.len() })
}
