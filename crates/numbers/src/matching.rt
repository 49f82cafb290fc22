// Which rows are atoms that match a fact: predicate, constants, and equal values where a variable repeats.
// What each function promises is in specs/Matching.antt.
ghost use Rattle.std.specs.Prelude.{◌≡◌, length, map};
ghost use Rattle.meaning.specs.Numbering;
ghost use Rattle.meaning.specs.Numbering.{fits};
ghost use Rattle.meaning.specs.Outcome.{fact_of};
ghost use Rattle.rule.specs.Decoded.{argument_of, row_of};
ghost use Rattle.numbers.specs.Matching.{matches_row, same_at, fits_first, bare};

use meaning::{Fact, Value};
use rule::{Argument, Row};

// Where the argument is the variable v, its value z is y.
fn again(v: u32, y: Value, argument: Argument, z: Value) -> bool
    ensures { result ≡ same_at v y.0 (argument_of argument) z.0 }
{
    match argument {
        Argument::Variable(w) => v != w || y.0 == z.0,
        Argument::Constant(_) => true,
    }
}

// Where the variable v has the value y, it has it at each of these later places too.
fn repeats(v: u32, y: Value, arguments: &[Argument], values: &[Value]) -> bool
    ensures { result ≡ Numbering.repeats v y.0 (map argument_of arguments.now) (bare values.now) }
{
    arguments
        .iter()
        .zip(values)
        .all(|(b, z)| again(v, y, *b, *z))
}

// The argument a fits its value y: a constant is the value, and a variable has it at the later places too.
fn first_fits(a: Argument, y: Value, arguments: &[Argument], values: &[Value]) -> bool
    ensures { result ≡ fits_first (argument_of a) y.0 (map argument_of arguments.now) (bare values.now) }
{
    match a {
        Argument::Variable(v) => repeats(v, y, arguments, values),
        Argument::Constant(k) => k.0 == y.0,
    }
}

// The arguments fit their values.
fn all_fit(arguments: &[Argument], values: &[Value]) -> bool
    requires { length arguments.now ≡ length values.now }
    ensures { result ≡ fits (map argument_of arguments.now) (bare values.now) }
{
    for i in 0..arguments.len() {
        if !first_fits(
            arguments[i],
            values[i],
            &arguments[i + 1..],
            &values[i + 1..],
        ) {
            return false;
        }
    }
    true
}

// The row is an atom that matches the fact. An atom has at most three arguments, and a fact three values.
pub fn matches(row: Row, fact: Fact) -> bool
    ensures { result ≡ matches_row (fact_of fact) (row_of row) }
{
    let Row::Atom(atom) = row else {
        return false;
    };
    if fact.predicate != atom.predicate || fact.count.min(3) != atom.count.min(3) {
        return false;
    }
    let n = atom.count.min(3) as usize;
    all_fit(&atom.arguments[..n], &fact.values[..n])
}
