// Refusal 5, an atom of more than 3 arguments, and refusal 7, one name with two counts.
ghost use Rattle.std.specs.Prelude.{◌≤◌, length};
ghost use Rattle.text.specs.Grammar.{HasReading};
ghost use Rattle.spelling.specs.Kinds.{kind_code};
ghost use Rattle.spelling.specs.Modes.{mode_code};
ghost use Rattle.census.specs.Folds.{Lexed};
ghost use Rattle.census.specs.Told.{Commas, Counts, ToldMany, Wide};

use spelling::kinds::Kind;
use spelling::modes::{Mode, next_mode};
use spelling::words::{Taken, next_word};

// The commas up to the next `)`.
fn commas(text: &[u8], from: usize) -> usize
    requires { Lexed text.now from }
    ensures { Commas text.now from result }
{
    let mut n = 0;
    let mut at = from;
    while let Some(w) = next_word(text, at) {
        match w.word {
            Kind::Close => return n,
            Kind::Comma => n += 1,
            _ => {}
        }
        at = w.past;
    }
    n
}

// How many arguments follow a name that ends at the place.
pub fn count_arguments(text: &[u8], at: usize) -> usize
    requires { Lexed text.now at }
    ensures { Counts text.now at result }
{
    match next_word(text, at) {
        Some(w) if w.word == Kind::Open => commas(text, w.past) + 1,
        _ => 0,
    }
}

// Whether a word is the name of an atom of more than 3 arguments.
fn is_wide(text: &[u8], mode: Mode, w: Taken) -> bool
    requires { Lexed text.now w.past }
    ensures { Wide text.now (mode_code mode) (kind_code w.word) w.past result }
{
    mode == Mode::Operand && w.word == Kind::Name && 3 < count_arguments(text, w.past)
}

// Whether some atom has more than 3 arguments.
pub fn too_many(text: &[u8]) -> bool
    requires { HasReading text.now }
    ensures { ToldMany text.now result }
{
    let mut mode = Mode::Operand;
    let mut at = 0;
    while let Some(w) = next_word(text, at) {
        if is_wide(text, mode, w) {
            return true;
        }
        mode = next_mode(mode, w.word);
        at = w.past;
    }
    false
}
