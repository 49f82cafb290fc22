// Refusal 4: a constant over 2^32 − 1.
ghost use Rattle.std.specs.Prelude.{◌≡◌, ◌-◌, ◌≤◌, length, take, drop};
ghost use Rattle.text.specs.Grammar.{HasReading};
ghost use Rattle.spelling.specs.Kinds.{kind_code};
ghost use Rattle.census.specs.Told.{large_code, ToldLarge};

use spelling::kinds::Kind;
use spelling::words::{Taken, next_word, value_of};

// Whether a word is such a constant.
#[tactic(auto, using(spelling::proofs::Each::kind_equal, crate::proofs::LargeLaws::large_value), unfolding(crate::specs::Told::large_code))]
fn is_large(text: &[u8], w: Taken) -> bool
    requires { (w.from ≤ w.past) × (w.past ≤ length text.now) }
    ensures { result ≡ large_code (kind_code w.word) (take (w.past - w.from) (drop w.from text.now)) }
{
    w.word == Kind::Constant && value_of(&text[w.from..w.past]).is_none()
}

// Whether some constant is.
pub fn too_large(text: &[u8]) -> bool
    requires { HasReading text.now }
    ensures { ToldLarge text.now result }
{
    let mut at = 0;
    while let Some(w) = next_word(text, at) {
        if is_large(text, w) {
            return true;
        }
        at = w.past;
    }
    false
}
