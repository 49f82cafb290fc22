// Sets of the four variables, packed in a number: bit v says that the variable v is in the set. Here the sets are the free variables of rows.
ghost use Rattle.std.specs.Prelude.{◌≡◌, not, ◌&&◌, ◌||◌, [], ◌∷◌, eqb, length, get_or, map, take};
ghost use Rattle.meaning.specs.Qtl.{free_arguments};
ghost use Rattle.rule.specs.Decoded.{argument_of, row_of};
ghost use Rattle.rule.specs.Masks.{has_bit, mask_of, free_of_row};

use crate::{Argument, Atom, Row};

// The mask of one variable. A variable is 0 to 3: any other has no bit.
fn single(v: u32) -> u32
    ensures { result ≡ mask_of (eqb v) }
{
    if v < 4 { 1 << v } else { 0 }
}

// The variables of both masks together.
fn join(a: u32, b: u32) -> u32
    ensures { result ≡ mask_of (λ v. has_bit a v || has_bit b v) }
{
    (a | b) % 16
}

// The variables of the mask but `x`.
fn without(x: u32, m: u32) -> u32
    ensures { result ≡ mask_of (λ v. not (eqb x v) && has_bit m v) }
{
    m & (15 - single(x))
}

// The mask of the row at place `p`: four bits.
fn at(free: &[u32; 64], p: u32) -> u32
    requires { length free.now ≡ 64 }
    ensures { result ≡ mask_of (has_bit (get_or free.now p 0)) }
{
    if p < 64 { free[p as usize] % 16 } else { 0 }
}

// The mask of an argument.
fn of_argument(a: Argument) -> u32
    ensures { result ≡ mask_of (free_arguments (argument_of a ∷ [])) }
{
    match a {
        Argument::Variable(v) => single(v),
        Argument::Constant(_) => 0,
    }
}

// The mask of an atom: of those of its arguments that are used.
fn of_atom(atom: Atom) -> u32
    ensures { result ≡ mask_of (free_arguments (take atom.count (map argument_of atom.arguments))) }
{
    let mut m = 0;
    for a in atom.arguments.iter().take(atom.count as usize) {
        m = join(m, of_argument(*a));
    }
    m
}

// The mask of a row, over those of the rows that it names.
pub fn of_row(row: Row, free: &[u32; 64]) -> u32
    requires { length free.now ≡ 64 }
    ensures { result ≡ mask_of (free_of_row free.now (row_of row)) }
{
    match row {
        Row::True => 0,
        Row::Atom(atom) => of_atom(atom),
        Row::And(l, r) | Row::Since(l, r) => join(at(free, l), at(free, r)),
        Row::Not(r) | Row::Previous(r) => at(free, r),
        Row::Exists(x, r) => without(x, at(free, r)),
    }
}
