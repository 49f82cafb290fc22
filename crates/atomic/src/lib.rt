// The nine numbers of an atom's row, from its arguments in the text. The definitions are in the crate text. Assumes nothing.
#![tactic(auto)]

ghost use Rattle.std.specs.Prelude.{◌≡◌, ◌-◌, ◌≤◌, ◌<◌, length, take, drop};
ghost use Rattle.spelling.specs.Kinds.{kind_code};
ghost use Rattle.census.specs.Folds.{Lexed};
ghost use Rattle.census.specs.Tables.{names_at, Within};
ghost use Rattle.atomic.specs.Arguments.{Puts, Adds, Collects, Numbers};

use census::spans::Names;
use spelling::kinds::Kind;
use spelling::words::{Taken, next_word, value_of};

// One argument more, the third number being their count; a fourth is not put.
fn put(nine: &mut [u32; 9], mark: u32, value: u32)
    ensures { Puts nine.old mark value nine.new }
{
    let count = nine[2];
    if count < 3 {
        let place = 3 + 2 * count as usize;
        nine[place] = mark;
        nine[place + 1] = value;
        nine[2] = count + 1;
    }
}

// A word's argument, where it is a name or a constant. A name that is not known has the number after the others.
fn add(names: Names, nine: &mut [u32; 9], w: Taken)
    requires within { Within names.text.now w.from w.past }
    requires few { length names.spans.now ≤ 4 }
    ensures { Adds (names_at names.entry.text.now names.entry.spans.now) nine.old (kind_code w.word) (take (w.past - w.from) (drop w.from names.entry.text.now)) nine.new }
{
    let bytes = &names.text[w.from..w.past];
    match w.word {
        Kind::Name => {
            put(nine, 0, names.number(bytes) as u32);
        }
        Kind::Constant => {
            // A text with a constant of no value has refusal 4, which comes first.
            put(nine, 1, value_of(bytes).unwrap_or(0));
        }
        _ => {}
    }
}

// The arguments from a place inside the parenthesis on, after those that are there.
fn collect(names: Names, nine: &mut [u32; 9], from: usize)
    requires lexed { Lexed names.text.now from }
    requires few { length names.spans.now ≤ 4 }
    ensures { Collects (names_at names.entry.text.now names.entry.spans.now) names.entry.text.now nine.old from nine.new }
{
    let mut at = from;
    while let Some(w) = next_word(names.text, at) {
        if w.word == Kind::Close {
            return;
        }
        add(names, nine, w);
        at = w.past;
    }
}

// The nine numbers of the atom whose name has this number and ends at this place, the names of variables being known.
pub fn atom(names: Names, predicate: u32, at: usize) -> [u32; 9]
    requires lexed { Lexed names.text.now at }
    requires few { length names.spans.now ≤ 4 }
    ensures { Numbers (names_at names.entry.text.now names.entry.spans.now) names.entry.text.now predicate at result }
{
    let mut nine = [2, predicate, 0, 0, 0, 0, 0, 0, 0];
    match next_word(names.text, at) {
        Some(w) if w.word == Kind::Open => {
            collect(names, &mut nine, w.past);
            nine
        }
        _ => nine,
    }
}
