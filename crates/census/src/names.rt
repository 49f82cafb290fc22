// Names by where they stand in the text, in order of first use; refusal 6, more than 4 variables, is judged by them.
ghost use Rattle.std.specs.Prelude.{◌≡◌, ◌+◌, ◌-◌, ◌≤◌, ◌<◌, length, take, drop};
ghost use Rattle.text.specs.Grammar.{HasReading};
ghost use Rattle.spelling.specs.Kinds.{kind_code};
ghost use Rattle.spelling.specs.Modes.{mode_code};
ghost use Rattle.census.specs.Tables.{Table, Within, asked_for, name_code};
ghost use Rattle.census.specs.Noting.{Noted, predicates, ToldNames};

use crate::spans::{Names, Span};
use spelling::kinds::Kind;
use spelling::modes::{Mode, next_mode};
use spelling::words::{Taken, next_word};

// Which names are wanted.
#[derive(Clone, Copy, PartialEq, Eq)]
pub enum Wanted {
    Predicates,
    Variables,
}

// Whether a word is a predicate (a name where an operand must come), or a variable (a name after a quantifier, or an argument).
#[tactic(auto, using(spelling::proofs::Each::kind_equal, spelling::proofs::Each::mode_equal), unfolding(crate::specs::Tables::name_code))]
pub fn is_name(wanted: Wanted, mode: Mode, word: Kind) -> bool
    ensures { result ≡ name_code (predicates wanted) (mode_code mode) (kind_code word) }
{
    match wanted {
        Wanted::Predicates => word == Kind::Name && mode == Mode::Operand,
        Wanted::Variables => {
            word == Kind::Name && (mode == Mode::Variable || mode == Mode::Argument)
        }
    }
}

// The first n spans are those of the names so far; a word that is a wanted name and new gets the next. How many there are then, or none
// where there is no room.
fn note(
    text: &[u8],
    spans: &mut [Span],
    n: usize,
    wanted: Wanted,
    mode: Mode,
    w: Taken,
) -> Option<usize>
    requires table { Table text.now (take n spans.old) × Within text.now w.from w.past }
    requires bounds { (length text.now ≤ 4096) × (n ≤ length spans.old) }
    ensures { Noted text.now spans.old n (asked_for (name_code (predicates wanted) (mode_code mode) (kind_code w.word)) (take (w.past - w.from) (drop w.from text.now))) spans.new result }
{
    if !is_name(wanted, mode, w.word) {
        return Some(n);
    }
    let known = Names {
        text,
        spans: &spans[..n],
    };
    if known.find(&text[w.from..w.past]).is_some() {
        return Some(n);
    }
    if n == spans.len() {
        return None;
    }
    spans[n] = Span {
        start: w.from as u16,
        length: (w.past - w.from) as u16,
    };
    Some(n + 1)
}

// The names of predicates, or of variables: how many, or none where they are more than there is room for.
pub fn names(text: &[u8], spans: &mut [Span], wanted: Wanted) -> Option<usize>
    requires { HasReading text.now × (length text.now ≤ 4096) }
    ensures { ToldNames (predicates wanted) text.now spans.new result }
{
    let mut n = 0;
    let mut mode = Mode::Operand;
    let mut at = 0;
    while let Some(w) = next_word(text, at) {
        n = note(text, spans, n, wanted, mode, w)?;
        mode = next_mode(mode, w.word);
        at = w.past;
    }
    Some(n)
}
