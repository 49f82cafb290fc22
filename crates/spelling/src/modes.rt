// What must come, and where each word leads.
ghost use Rattle.std.specs.Prelude.{◌≡◌};
ghost use Rattle.spelling.specs.Codes.{next_mode};
ghost use Rattle.spelling.specs.Kinds.{kind_code};
ghost use Rattle.spelling.specs.Modes.{mode_code};

use crate::kinds::Kind;

// What must come: an operand; an operator, `)` or the end; these or `(` after a name; a variable; `.`; an argument; `,` or `)`; nothing.
#[derive(Clone, Copy, PartialEq, Eq)]
pub enum Mode {
    Operand,
    Operator,
    AfterName,
    Variable,
    AfterVariable,
    Argument,
    AfterArgument,
    Nothing,
}

// Each by a short name, for the table.
const OPERAND: Mode = Mode::Operand;

const OPERATOR: Mode = Mode::Operator;

const NAMED: Mode = Mode::AfterName;

const VARIABLE: Mode = Mode::Variable;

const QUANTIFIED: Mode = Mode::AfterVariable;

const ARGUMENT: Mode = Mode::Argument;

const ARGUED: Mode = Mode::AfterArgument;

const X: Mode = Mode::Nothing;

// Where each word leads, from each mode: the words of `Kind` in their order.
static NEXT: [[Mode; 18]; 8] = [
    [
        NAMED, X, OPERATOR, OPERATOR, OPERAND, OPERAND, OPERAND, OPERAND, X, X, X, X, VARIABLE,
        VARIABLE, OPERAND, X, X, X,
    ],
    [
        X, X, X, X, X, X, X, X, OPERAND, OPERAND, OPERAND, OPERAND, X, X, X, OPERATOR, X, X,
    ],
    [
        X, X, X, X, X, X, X, X, OPERAND, OPERAND, OPERAND, OPERAND, X, X, ARGUMENT, OPERATOR, X, X,
    ],
    [
        QUANTIFIED, X, X, X, X, X, X, X, X, X, X, X, X, X, X, X, X, X,
    ],
    [X, X, X, X, X, X, X, X, X, X, X, X, X, X, X, X, X, OPERAND],
    [
        ARGUED, ARGUED, X, X, X, X, X, X, X, X, X, X, X, X, X, X, X, X,
    ],
    [
        X, X, X, X, X, X, X, X, X, X, X, X, X, X, X, OPERATOR, ARGUMENT, X,
    ],
    [X, X, X, X, X, X, X, X, X, X, X, X, X, X, X, X, X, X],
];

// The mode after a word. A `)` that closes nothing is not told apart here.
pub fn next_mode(mode: Mode, word: Kind) -> Mode
    ensures { mode_code result ≡ next_mode (mode_code mode) (kind_code word) }
{
    NEXT[mode as usize][word as usize]
}
