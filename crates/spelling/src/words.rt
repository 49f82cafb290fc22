// Words: which a run of letters is, where one ends, and the value of a constant.
ghost use Rattle.std.specs.Prelude.{◌≡◌, Bool, List, ◌-◌, ◌≤◌, length, drop};
ghost use Rattle.text.specs.Words.{Word, Spelled, word_of};
ghost use Rattle.text.specs.Unfold.{value_after};
ghost use Rattle.spelling.specs.Codes.{code_of, Ends, Skips, Next, Valued};
ghost use Rattle.spelling.specs.Kinds.{kind_code};

use crate::bytes::{Beginning, class_of, is_word_byte};
use crate::kinds::Kind;

// A word with its first byte and the place past it.
#[derive(Clone, Copy)]
pub struct Taken {
    pub word: Kind,
    pub from: usize,
    pub past: usize,
}

// The word that letters, digits and `_` spell.
#[tactic(auto, using(crate::proofs::PickLaws::name_or_reserved))]
pub fn word_of(w: &[u8]) -> Kind
    ensures { kind_code result ≡ code_of (word_of w.now) }
{
    match w {
        b"forall" => Kind::Forall,
        b"exists" => Kind::Exists,
        b"P" => Kind::Once,
        b"H" => Kind::Historically,
        b"S" => Kind::Since,
        b"true" => Kind::True,
        b"false" => Kind::False,
        _ => Kind::Name,
    }
}

// The end of the letters, digits and `_` from `at` on.
fn word_end(text: &[u8], at: usize) -> usize
    requires { at ≤ length text.now }
    ensures { Ends text.now at result }
{
    for i in at..text.len() {
        if !is_word_byte(text[i]) {
            return i;
        }
    }
    text.len()
}

// The end of the spaces from `at` on.
fn spaces_end(text: &[u8], at: usize) -> usize
    requires { at ≤ length text.now }
    ensures { Skips text.now at result }
{
    for i in at..text.len() {
        if text[i] != b' ' {
            return i;
        }
    }
    text.len()
}

// The first word from `at` on, or none where no word is left, for a text that spells words from there.
#[inline(always)]
pub fn next_word(text: &[u8], at: usize) -> Option<Taken>
    requires { at ≤ length text.now }
    ensures { (v : Bool) (ws : List Word) → Spelled v ws (drop at text.now) → Next text.now at ws result }
{
    let from = spaces_end(text, at);
    if from == text.len() {
        return None;
    }
    let Beginning::Word(word) = class_of(text[from]) else {
        return None;
    };
    match word {
        Kind::Name => {
            let past = word_end(text, from);
            let word = word_of(&text[from..past]);
            Some(Taken { word, from, past })
        }
        Kind::Constant => {
            let past = word_end(text, from);
            Some(Taken { word, from, past })
        }
        Kind::Implies => {
            let past = from + 2;
            Some(Taken { word, from, past })
        }
        _ => {
            let past = from + 1;
            Some(Taken { word, from, past })
        }
    }
}

// A digit's value.
fn digit(b: u8) -> u32
    ensures { result ≡ b - 48 }
{
    u32::from(b.saturating_sub(b'0'))
}

// A constant's value, where it is below 2^32.
pub fn value_of(digits: &[u8]) -> Option<u32>
    ensures { Valued (value_after 0 digits.now) result }
{
    let mut value: u32 = 0;
    for b in digits {
        value = value.checked_mul(10)?.checked_add(digit(*b))?;
    }
    Some(value)
}
