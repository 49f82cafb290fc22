// Numbers for values: looking a value up, which atoms match a fact, and which numbers an event asks for. Nothing is written to the value slice here.
// What each function promises is in specs/; the lists themselves are those of `meaning`.
#![tactic(auto)]

pub mod asking; // asking.rt: what an event asks
pub mod looking; // looking.rt: a value's number, and whether one is left
pub mod matching; // matching.rt: the atoms that match a fact

ghost use Rattle.std.specs.Prelude.{◌≡◌, ◌+◌, ◌*◌, ◌<◌, ◌≤◌, length, get_or};
ghost use Rattle.meaning.specs.Outcome.{fact_of, k_right};
ghost use Rattle.meaning.specs.Tables;
ghost use Rattle.numbers.specs.Asking.{number_at};
ghost use Rattle.numbers.specs.Looking.{number_told};

pub use asking::ask;
pub use looking::look_up;
use making::Number;
pub use matching::matches;
use meaning::{Fact, Value};

// What an event asks: how many values of each variable have numbers after it; the new values of variable v, in order, from
// 24 * v on, and 0 past them; and at 12 * f + 3 * v + j the number that variable v has for value j of fact f, where an atom that
// matches the fact has v at place j, and none elsewhere.
#[derive(Clone, Copy)]
pub struct Asked {
    pub counts: [u32; 4],
    pub fresh: [Value; 96],
    pub given: [Option<Number>; 96],
}

// What looking a value up tells: it has this number; it has none, and one is left; it has none, and none is left; or there is nothing
// to look in, because k, the variable, the count or the length of the value slice is none that a state has.
#[derive(Clone, Copy)]
pub enum Lookup {
    Has(Number),
    OneLeft,
    NoneLeft,
    Misfit,
}

impl Lookup {
    // The number that was told.
    pub fn number(self) -> Option<Number>
        ensures { result ≡ number_told self }
    {
        match self {
            Lookup::Has(n) => Some(n),
            Lookup::OneLeft | Lookup::NoneLeft | Lookup::Misfit => None,
        }
    }
}

// The most values of a variable that have numbers. The caller has checked k (refusal 1).
pub fn most(k: u32) -> u32
    requires { k ≤ 10 }
    ensures { result ≡ Tables.most k }
{
    (1 << k) - 1
}

// "k from 1 to 10"
pub fn k_right(k: u32) -> bool
    ensures { result ≡ k_right k }
{
    (1..=10).contains(&k)
}

// The length of the value slice: four parts, each of the most values of a variable.
pub fn listed(k: u32) -> usize
    requires { k ≤ 10 }
    ensures { result ≡ 4 * Tables.most k }
{
    4 * most(k) as usize
}

// The number that variable v has for value j of fact f, if any: the table `given` is read here and nowhere else.
pub fn number_of(given: &[Option<Number>; 96], f: usize, v: usize, j: usize) -> Option<Number>
    requires { (length given.now ≡ 96) × (f < 8) × (v < 4) × (j < 3) }
    ensures { result ≡ number_at given.now f v j }
{
    given[12 * f + (3 * v + j)]
}

// The fact's value at place j.
fn value_at(fact: Fact, j: usize) -> Value
    requires { (j < fact.count) × (fact.count ≤ 3) }
    ensures { result.0 ≡ get_or (fact_of fact).values j 0 }
{
    fact.values[j]
}
