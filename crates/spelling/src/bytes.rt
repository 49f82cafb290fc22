// Bytes: what each begins, and which go on with a word of letters.
ghost use Rattle.std.specs.Prelude.{◌≡◌};
ghost use Rattle.text.specs.Words.{is_word_byte};
ghost use Rattle.text.specs.Reader.{class_of};
ghost use Rattle.spelling.specs.Codes.{class_number};
ghost use Rattle.spelling.specs.Kinds.{beginning_code};

use crate::kinds::Kind;

// What a byte begins: a word, a space, or nothing that is in a rule text. A letter begins a word of letters, shown as a name whatever the
// whole word is; a digit begins a constant, and `-` begins `->`.
#[derive(Clone, Copy, PartialEq, Eq)]
pub enum Beginning {
    Word(Kind),
    Space,
    Foreign,
}

// Each by a short name, for the table.
const X: Beginning = Beginning::Foreign;

const L: Beginning = Beginning::Word(Kind::Name);

const D: Beginning = Beginning::Word(Kind::Constant);

const SPACE: Beginning = Beginning::Space;

const DASH: Beginning = Beginning::Word(Kind::Implies);

const AT: Beginning = Beginning::Word(Kind::Before);

const BANG: Beginning = Beginning::Word(Kind::Not);

const AND: Beginning = Beginning::Word(Kind::And);

const BAR: Beginning = Beginning::Word(Kind::Or);

const OPEN: Beginning = Beginning::Word(Kind::Open);

const CLOSE: Beginning = Beginning::Word(Kind::Close);

const COMMA: Beginning = Beginning::Word(Kind::Comma);

const DOT: Beginning = Beginning::Word(Kind::Dot);

// What each byte begins.
static CLASS: [Beginning; 256] = [
    X, X, X, X, X, X, X, X, X, X, X, X, X, X, X, X, X, X, X, X, X, X, X, X, X, X, X, X, X, X, X, X,
    SPACE, BANG, X, X, X, X, AND, X, OPEN, CLOSE, X, X, COMMA, DASH, DOT, X, D, D, D, D, D, D, D,
    D, D, D, X, X, X, X, X, X, AT, L, L, L, L, L, L, L, L, L, L, L, L, L, L, L, L, L, L, L, L, L,
    L, L, L, L, L, X, X, X, X, X, X, L, L, L, L, L, L, L, L, L, L, L, L, L, L, L, L, L, L, L, L, L,
    L, L, L, L, L, X, BAR, X, X, X, X, X, X, X, X, X, X, X, X, X, X, X, X, X, X, X, X, X, X, X, X,
    X, X, X, X, X, X, X, X, X, X, X, X, X, X, X, X, X, X, X, X, X, X, X, X, X, X, X, X, X, X, X, X,
    X, X, X, X, X, X, X, X, X, X, X, X, X, X, X, X, X, X, X, X, X, X, X, X, X, X, X, X, X, X, X, X,
    X, X, X, X, X, X, X, X, X, X, X, X, X, X, X, X, X, X, X, X, X, X, X, X, X, X, X, X, X, X, X, X,
    X, X, X, X, X, X, X, X, X, X, X,
];

pub fn class_of(b: u8) -> Beginning
    ensures { beginning_code result ≡ class_number (class_of b) }
{
    CLASS[b as usize]
}

// Whether a word of letters goes on with each byte.
static WORDY: [bool; 256] = [
    false, false, false, false, false, false, false, false, false, false, false, false, false,
    false, false, false, false, false, false, false, false, false, false, false, false, false,
    false, false, false, false, false, false, false, false, false, false, false, false, false,
    false, false, false, false, false, false, false, false, false, true, true, true, true, true,
    true, true, true, true, true, false, false, false, false, false, false, false, true, true,
    true, true, true, true, true, true, true, true, true, true, true, true, true, true, true, true,
    true, true, true, true, true, true, true, true, false, false, false, false, true, false, true,
    true, true, true, true, true, true, true, true, true, true, true, true, true, true, true, true,
    true, true, true, true, true, true, true, true, true, false, false, false, false, false, false,
    false, false, false, false, false, false, false, false, false, false, false, false, false,
    false, false, false, false, false, false, false, false, false, false, false, false, false,
    false, false, false, false, false, false, false, false, false, false, false, false, false,
    false, false, false, false, false, false, false, false, false, false, false, false, false,
    false, false, false, false, false, false, false, false, false, false, false, false, false,
    false, false, false, false, false, false, false, false, false, false, false, false, false,
    false, false, false, false, false, false, false, false, false, false, false, false, false,
    false, false, false, false, false, false, false, false, false, false, false, false, false,
    false, false, false, false, false, false, false, false, false, false, false, false, false,
    false, false, false, false, false, false, false, false, false, false,
];

pub fn is_word_byte(b: u8) -> bool
    ensures { result ≡ is_word_byte b }
{
    WORDY[b as usize]
}
