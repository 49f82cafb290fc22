// Refusal 7: one name with two counts.
ghost use Rattle.std.specs.Prelude.{true, ◌≡◌, ◌-◌, ◌≤◌, ◌<◌, length, take, drop};
ghost use Rattle.text.specs.Grammar.{HasReading};
ghost use Rattle.text.specs.Unfold.{number_in};
ghost use Rattle.spelling.specs.Kinds.{kind_code};
ghost use Rattle.spelling.specs.Modes.{mode_code};
ghost use Rattle.census.specs.Folds.{Lexed};
ghost use Rattle.census.specs.Tables.{names_at, Within, name_code};
ghost use Rattle.census.specs.Clashes.{Settled, Predicates, ToldClash};

use crate::calls::count_arguments;
use crate::names::{Wanted, is_name};
use crate::noted::Noted;
use crate::spans::Names;
use spelling::modes::{Mode, next_mode};
use spelling::words::{Taken, next_word};

// A word comes: where it is a predicate's name, the count of its arguments is noted, or compared with what was noted. Whether they differ.
fn settle(names: Names, counts: &mut [Noted; 4096], mode: Mode, w: Taken) -> bool
    requires within { Within names.text.now w.from w.past × Lexed names.text.now w.past }
    requires bounds { (length names.text.now ≤ 4096) × (length names.spans.now ≤ 4096) }
    requires listed { name_code true (mode_code mode) (kind_code w.word) ≡ true → number_in (names_at names.text.now names.spans.now) (take (w.past - w.from) (drop w.from names.text.now)) < length names.spans.now }
    ensures { Settled names.entry.text.now (names_at names.entry.text.now names.entry.spans.now) (name_code true (mode_code mode) (kind_code w.word)) w.from w.past counts.old counts.new result }
{
    if !is_name(Wanted::Predicates, mode, w.word) {
        return false;
    }
    let i = names.find(&names.text[w.from..w.past]).unwrap();
    let count = count_arguments(names.text, w.past) as u16;
    match counts[i].get() {
        Some(noted) => noted != count,
        None => {
            counts[i] = Noted::count(count);
            false
        }
    }
}

// Whether some name has two counts, the names of predicates being known.
pub fn clashes(names: Names) -> bool
    requires has_reading { HasReading names.text.now × (length names.text.now ≤ 4096) }
    requires predicates { Predicates names.text.now names.spans.now }
    ensures { ToldClash names.entry.text.now result }
{
    let mut counts = [Noted::NOTHING; 4096];
    let mut mode = Mode::Operand;
    let mut at = 0;
    while let Some(w) = next_word(names.text, at) {
        if settle(names, &mut counts, mode, w) {
            return true;
        }
        mode = next_mode(mode, w.word);
        at = w.past;
    }
    false
}
