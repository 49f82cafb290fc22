// What an event asks: fact by fact, the walk over the rows, and the numbers that it gives out. Nothing is written to the value slice here.
// What each function promises is in specs/Asking.antt.
ghost use Rattle.std.specs.Prelude.{◌≡◌, ◌+◌, ◌<◌, ◌≤◌, length, get_or, take};
ghost use Rattle.meaning.specs.Rows.{argument_at, right, check_rows, count_of_rows, rule_of};
ghost use Rattle.meaning.specs.Numbering;
ghost use Rattle.meaning.specs.Numbering.{ask_arguments, ask_rows};
ghost use Rattle.meaning.specs.Outcome.{fact_of};
ghost use Rattle.numbers.specs.Matching.{Sized, arguments_of};
ghost use Rattle.numbers.specs.Asking.{number_in, Parted, part_of, with_fresh, bare, sheet, nothing_given, Steady, Carried, Pair, ask_one, AtPlace, AtPlaces, Asking, AskedBy, Put, Askable, Asks};

use super::looking::{Parts, look_in};
use super::matching::matches;
use super::{Asked, most, value_at};
use making::Number;
use meaning::{Event, Fact, Value};

// What the event has asked so far: how many values of each variable have numbers now, the fresh values of variable v from 24 * v on,
// and of the fact at hand, at 3 * v + j, the number that variable v has for its value j.
#[derive(Clone, Copy)]
struct Noted {
    counts: [u32; 4],
    fresh: [Value; 96],
    numbers: [Option<Number>; 12],
}

// The values as numbers, in front of a list of 24.
fn plain(fresh: &[Value]) -> [u32; 24]
    requires { length fresh.now ≤ 24 }
    ensures { take (length fresh.now) result ≡ bare fresh.now }
{
    let mut numbers = [0; 24];
    for i in 0..fresh.len() {
        numbers[i] = fresh[i].0;
    }
    numbers
}

impl Noted {
    // The number of y among the values of variable v, those of this event included.
    fn known(&self, parts: &Parts, v: usize, y: Value) -> Option<Number>
        requires { (length self.now.fresh ≡ 96) × Parted parts.now.m parts.now.counts parts.now.values.now × (v < 4) × (get_or parts.now.counts v 0 ≤ get_or self.now.counts v 0) × (get_or self.now.counts v 0 ≤ get_or parts.now.counts v 0 + 24) }
        ensures { result ≡ number_in (with_fresh parts.now.counts self.now.counts (bare self.now.fresh) (part_of parts.now.m parts.now.counts parts.now.values.now) v) y.0 }
    {
        if let Some(n) = parts.look(v, y).number() {
            return Some(n);
        }
        let before = parts.counts[v];
        let from = 24 * v;
        let to = from + (self.counts[v] - before) as usize;
        let fresh = &self.fresh[from..to];
        let n = look_in(&plain(fresh)[..fresh.len()], 24, y).number()?;
        Some(Number(before + n.0))
    }

    // Variable v asks a number for the fact's value j. A list is searched only here, where a matching atom asks.
    fn note(&mut self, parts: &Parts, fact: Fact, v: usize, j: usize)
        requires { Steady parts.now.counts (sheet self.old.counts self.old.fresh self.old.numbers) × Parted parts.now.m parts.now.counts parts.now.values.now × Sized fact × (v < 4) × (j < fact.count) }
        ensures { Carried parts.now.counts (part_of parts.now.m parts.now.counts parts.now.values.now) (fact_of fact).values (λ M. Numbering.ask M v (get_or (fact_of fact).values j 0)) (Pair v j) (sheet self.old.counts self.old.fresh self.old.numbers) (sheet self.new.counts self.new.fresh self.new.numbers) }
    {
        let at = 3 * v + j;
        if self.numbers[at].is_some() {
            return;
        }
        let y = value_at(fact, j);
        let found = self.known(parts, v, y);
        if found.is_some() {
            self.numbers[at] = found;
            return;
        }
        let n = self.counts[v];
        self.numbers[at] = Some(Number(n));
        self.counts[v] = n + 1;
        self.fresh[24 * v + (n - parts.counts[v]) as usize] = y;
    }

    // The argument at place j of row i asks.
    fn ask_argument(&mut self, parts: &Parts, rows: &[u32], i: usize, fact: Fact, j: usize)
        requires { Steady parts.now.counts (sheet self.old.counts self.old.fresh self.old.numbers) × Parted parts.now.m parts.now.counts parts.now.values.now × Asking rows.now i fact × (j < fact.count) }
        ensures { Carried parts.now.counts (part_of parts.now.m parts.now.counts parts.now.values.now) (fact_of fact).values (ask_one (argument_at rows.now i j) (get_or (fact_of fact).values j 0)) (AtPlace rows.now i j) (sheet self.old.counts self.old.fresh self.old.numbers) (sheet self.new.counts self.new.fresh self.new.numbers) }
    {
        if rows[9 * i + (3 + 2 * j)] == 0 {
            let v = rows[9 * i + (4 + 2 * j)] as usize;
            self.note(parts, fact, v, j);
        }
    }

    // The arguments of row i ask, in order.
    fn ask_arguments(&mut self, parts: &Parts, rows: &[u32], i: usize, fact: Fact)
        requires { Steady parts.now.counts (sheet self.old.counts self.old.fresh self.old.numbers) × Parted parts.now.m parts.now.counts parts.now.values.now × Asking rows.now i fact }
        ensures { Carried parts.now.counts (part_of parts.now.m parts.now.counts parts.now.values.now) (fact_of fact).values (λ M. ask_arguments M (arguments_of rows.now i fact.count) (fact_of fact).values) (AtPlaces rows.now i fact.count) (sheet self.old.counts self.old.fresh self.old.numbers) (sheet self.new.counts self.new.fresh self.new.numbers) }
    {
        for j in 0..fact.count as usize {
            self.ask_argument(parts, rows, i, fact, j);
        }
    }

    // What one fact asks: the rows are walked in order, and every matching atom asks.
    fn ask_fact(&mut self, parts: &Parts, rows: &[u32], fact: Fact)
        requires { Steady parts.now.counts (sheet self.old.counts self.old.fresh self.old.numbers) × Parted parts.now.m parts.now.counts parts.now.values.now × (check_rows rows.now ≡ right) × (fact.count ≤ 3) }
        ensures { Carried parts.now.counts (part_of parts.now.m parts.now.counts parts.now.values.now) (fact_of fact).values (λ M. ask_rows (fact_of fact) M (rule_of rows.now)) (AskedBy (fact_of fact) rows.now (count_of_rows rows.now)) (sheet self.old.counts self.old.fresh self.old.numbers) (sheet self.new.counts self.new.fresh self.new.numbers) }
    {
        for i in 0..rows.len() / 9 {
            if matches(rule::row_at(rows, i), fact) {
                self.ask_arguments(parts, rows, i, fact);
            }
        }
    }
}

// What the event asks, fact by fact. The caller has checked k, the rows, the counts and the length of the value slice before
// (refusals 1 to 4), and that the event has at most eight facts of at most three values each (refusal 5).
pub fn ask(k: u32, before: [u32; 4], values: &[u32], rows: &[u32], event: Event) -> Asked
    requires { Askable k before values.now rows.now event }
    ensures { Asks k before values.now rows.now event result }
{
    let m = most(k) as usize;
    let parts = Parts {
        m,
        counts: before,
        values,
    };
    let mut a = Noted {
        counts: before,
        fresh: [Value(0); 96],
        numbers: [None; 12],
    };
    let mut given = [None; 96];
    for f in 0..event.count as usize {
        a.numbers = [None; 12];
        a.ask_fact(&parts, rows, event.facts[f]);
        given[12 * f..12 * f + 12].copy_from_slice(&a.numbers);
    }
    Asked {
        counts: a.counts,
        fresh: a.fresh,
        given,
    }
}
