// Refusal 8: a free variable. For each variable the depth of parentheses at which it is bound is kept, counted from 1, and 0 where it is
// not: a quantifier reaches to the parenthesis that closes around it, or to the end.
ghost use Rattle.std.specs.Prelude.{◌≡◌, true, false, ◌-◌, ◌≤◌, ◌<◌, length, take, drop};
ghost use Rattle.text.specs.Grammar.{HasReading};
ghost use Rattle.text.specs.Unfold.{number_in};
ghost use Rattle.spelling.specs.Kinds.{kind_code};
ghost use Rattle.spelling.specs.Modes.{mode_code};
ghost use Rattle.census.specs.Tables.{names_at, Within, name_code};
ghost use Rattle.census.specs.Scopes.{lowered, Lowered, binding_at, scope_event, EntersTo, Variables, ToldLoose};

use crate::spans::Names;
use spelling::kinds::Kind;
use spelling::modes::{Mode, next_mode};
use spelling::words::{Taken, next_word};

// What is left of a binding once the depth is that.
#[tactic(auto, unfolding(crate::specs::Scopes::lowered))]
fn lower(since: usize, depth: usize) -> usize
    ensures { result ≡ lowered depth since }
{
    if depth < since {
        return 0;
    }
    since
}

// A parenthesis closes, and the bindings in it end.
fn close(since: &mut [usize; 4], depth: usize)
    ensures { Lowered depth since.old since.new }
{
    for s in since.iter_mut() {
        *s = lower(*s, depth);
    }
}

// A binding at the depth, unless there is one.
#[tactic(auto, unfolding(crate::specs::Scopes::binding_at))]
fn bind(since: usize, depth: usize) -> usize
    ensures { result ≡ binding_at depth true since }
{
    if since == 0 { depth } else { since }
}

// A word comes: a parenthesis, a quantifier's variable, a variable as an argument, or something else. The depth of parentheses after it, or
// none where the variable is not bound.
fn enter(names: Names, since: &mut [usize; 4], depth: usize, mode: Mode, w: Taken) -> Option<usize>
    requires within { Within names.text.now w.from w.past }
    requires bounds { (length names.spans.now ≤ 4) × (depth < 9223372036854775808) }
    requires listed { name_code false (mode_code mode) (kind_code w.word) ≡ true → number_in (names_at names.text.now names.spans.now) (take (w.past - w.from) (drop w.from names.text.now)) < length names.spans.now }
    ensures { EntersTo (names_at names.entry.text.now names.entry.spans.now) (scope_event (mode_code mode) (kind_code w.word) (take (w.past - w.from) (drop w.from names.entry.text.now))) since.old since.new depth result }
{
    match w.word {
        Kind::Name => match mode {
            Mode::Variable => {
                let v = names.find(&names.text[w.from..w.past]).unwrap();
                since[v] = bind(since[v], depth);
                Some(depth)
            }
            Mode::Argument => {
                let v = names.find(&names.text[w.from..w.past]).unwrap();
                if since[v] == 0 { None } else { Some(depth) }
            }
            _ => Some(depth),
        },
        Kind::Open => match mode {
            Mode::Operand => Some(depth + 1),
            _ => Some(depth),
        },
        Kind::Close => match mode {
            Mode::AfterArgument => Some(depth),
            _ => {
                let outer = depth.saturating_sub(1);
                close(since, outer);
                Some(outer)
            }
        },
        _ => Some(depth),
    }
}

// Whether some variable is free, the names of variables being known.
pub fn has_free(names: Names) -> bool
    requires { HasReading names.text.now × Variables names.text.now names.spans.now }
    ensures { ToldLoose names.entry.text.now result }
{
    let mut since = [0; 4];
    let mut depth = 1;
    let mut mode = Mode::Operand;
    let mut at = 0;
    while let Some(w) = next_word(names.text, at) {
        let Some(after) = enter(names, &mut since, depth, mode, w) else {
            return true;
        };
        depth = after;
        mode = next_mode(mode, w.word);
        at = w.past;
    }
    false
}
