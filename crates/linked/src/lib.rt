// The monitor for programs in C and Rust that link it: start, event and lookup, with the state as 135 numbers, the answer of the first
// two as 10 and that of the third as 2, and a fact as 5. All calls are total. How numbers are laid out is in specs/Packing.antt, what each call gives back and leaves in specs/Calls.antt.
#![tactic(auto)]

mod happening;
mod packing;

ghost use Rattle.linked.specs.Calls.{LinkedStart, LinkedEvent, LinkedLookup};

use meaning::Value;
use monitor::Figures;

// How many numbers a state, the answer of start and event, and that of lookup are.
const STATE: usize = 135;

const ANSWER: usize = 10;

const TOLD: usize = 2;

// Start. False, with nothing written, where the state has not 135 numbers or the answer not 10.
pub fn moheguzari_start(
    k: u32,
    rows: &[u32],
    nodes: &mut [u32],
    values: &mut [u32],
    state: &mut [u32],
    answer: &mut [u32],
) -> bool
    ensures { LinkedStart k rows.now nodes.old values.old state.old answer.old result nodes.new values.new state.new answer.new }
{
    if state.len() != STATE {
        return false;
    }
    if answer.len() != ANSWER {
        return false;
    }
    let turn = monitor::start(k, rows, nodes, values);
    packing::pack(turn.state, state);
    answer.copy_from_slice(&packing::answered(turn.answer, 0, 0, [0; 4]));
    true
}

// Event: its facts, five numbers each: a predicate, its count of values, and three values, of which those past the count are
// ignored. False, with nothing written, where the facts are no fives, the state has not 135 numbers or the answer not 10.
pub fn moheguzari_event(
    rows: &[u32],
    nodes: &mut [u32],
    values: &mut [u32],
    work: &mut [u32],
    facts: &[u32],
    state: &mut [u32],
    answer: &mut [u32],
) -> bool
    ensures { LinkedEvent rows.now nodes.old values.old work.old facts.now state.old answer.old result nodes.new values.new work.new state.new answer.new }
{
    if facts.len() % 5 != 0 {
        return false;
    }
    if state.len() != STATE {
        return false;
    }
    if answer.len() != ANSWER {
        return false;
    }
    let before = packing::unpack(state);
    let mut refs = before.refs;
    let mut sizes = before.sizes;
    let figures = Figures::of(&before);
    let event = happening::event(facts);
    let said = monitor::event_on(
        figures, &mut refs, &mut sizes, rows, nodes, values, work, event,
    );
    packing::pack(said.figures.with(refs, sizes), state);
    let written = packing::answered(said.answer, said.complements, said.swept, said.numbered);
    answer.copy_from_slice(&written);
    true
}

// Lookup: "Is this lot new to the rule?" Whether a variable of the state has a number for a value, and whether one is left where it has
// none. False, with nothing written, where the state has not 135 numbers or the answer not 2.
pub fn moheguzari_lookup(
    values: &[u32],
    state: &[u32],
    variable: u32,
    value: u32,
    answer: &mut [u32],
) -> bool
    ensures { LinkedLookup values.now state.now variable value answer.old result answer.new }
{
    if state.len() != STATE {
        return false;
    }
    if answer.len() != TOLD {
        return false;
    }
    let before = packing::unpack(state);
    let found = numbers::look_up(before.k, before.counts, values, variable, Value(value));
    packing::put_found(found, answer);
    true
}
