// What the rows of a rule ask of the diagrams in one event: of an atom what each fact adds to it, of any other row one instruction.
#![tactic(auto)]

ghost use Rattle.std.specs.Prelude.{◌≡◌, ◌<◌, length, map, take};
ghost use Rattle.rule.specs.Decoded.{argument_of, row_of};
ghost use Rattle.instructions.specs.Read.{names, place_read, row_turn, is_atom, instruction_read};

use diagram::Instruction;
use making::Number;
use numbers::number_of;
use rule::{Argument, Atom, Row};

// The argument is the variable `v`.
fn is_variable(v: u32, argument: Argument) -> bool
    ensures { result ≡ names v (argument_of argument) }
{
    match argument {
        Argument::Variable(w) => w == v,
        Argument::Constant(_) => false,
    }
}

// What the bits of variable `v` are to show for the values of fact `f`, whose numbers are in the table `given`: the number at the variable's
// first place among the arguments that are used, and any where it has none.
fn place_of(v: u32, atom: Atom, given: &[Option<Number>; 96], f: usize) -> Option<Number>
    requires { (v < 4) × (f < 8) × (length given.now ≡ 96) }
    ensures { result ≡ place_read v 0 (take atom.count (map argument_of atom.arguments)) given.now f }
{
    let used = atom.count.min(3) as usize;
    for j in 0..used {
        if is_variable(v, atom.arguments[j]) {
            return Some(number_of(given, f, v as usize, j).unwrap_or(Number(u32::MAX)));
        }
    }
    None
}

// Whether the row is an atom.
pub fn is_atom(row: Row) -> bool
    ensures { result ≡ is_atom (row_of row) }
{
    matches!(row, Row::Atom(_))
}

// What fact `f` adds to the row: `matched` says whether the row is an atom that matches it.
pub fn turn(
    row: Row,
    matched: bool,
    given: &[Option<Number>; 96],
    f: usize,
) -> Option<[Option<Number>; 4]>
    requires { (f < 8) × (length given.now ≡ 96) }
    ensures { result ≡ row_turn (row_of row) matched given.now f }
{
    let Row::Atom(atom) = row else {
        return None;
    };
    if !matched {
        return None;
    }
    let x = place_of(0, atom, given, f);
    let y = place_of(1, atom, given, f);
    let z = place_of(2, atom, given, f);
    let w = place_of(3, atom, given, f);
    Some([x, y, z, w])
}

// The instruction of a row that is no atom. An atom has none; it reads as yes.
pub fn instruction(row: Row) -> Instruction
    ensures { result ≡ instruction_read (row_of row) }
{
    match row {
        Row::True | Row::Atom(_) => Instruction::Yes,
        Row::And(l, r) => Instruction::And(l, r),
        Row::Not(r) => Instruction::Not(r),
        Row::Since(l, r) => Instruction::Since(l, r),
        Row::Previous(r) => Instruction::Old(r),
        Row::Exists(x, r) => Instruction::Drop(x, r),
    }
}
