// The calls of crate linked for programs in C and Rust that link them: a static library, and nothing that linked does not promise.
// A slice comes as a pointer and a length (include/moheguzari.h).
#![tactic(auto)]

ghost use Rattle.linked.specs.Calls.{LinkedStart, LinkedEvent, LinkedLookup};

// Start.
#[unsafe(no_mangle)]
pub extern "C" fn moheguzari_start(
    k: u32,
    rows: &[u32],
    nodes: &mut [u32],
    values: &mut [u32],
    state: &mut [u32],
    answer: &mut [u32],
) -> bool
    ensures { LinkedStart k rows.now nodes.old values.old state.old answer.old result nodes.new values.new state.new answer.new }
{
    linked::moheguzari_start(k, rows, nodes, values, state, answer)
}

// Event.
#[unsafe(no_mangle)]
pub extern "C" fn moheguzari_event(
    rows: &[u32],
    nodes: &mut [u32],
    values: &mut [u32],
    work: &mut [u32],
    facts: &[u32],
    state: &mut [u32],
    answer: &mut [u32],
) -> bool
    ensures { LinkedEvent rows.now nodes.old values.old work.old facts.now state.old answer.old result nodes.new values.new work.new state.new answer.new }
{
    linked::moheguzari_event(rows, nodes, values, work, facts, state, answer)
}

// Lookup.
#[unsafe(no_mangle)]
pub extern "C" fn moheguzari_lookup(
    values: &[u32],
    state: &[u32],
    variable: u32,
    value: u32,
    answer: &mut [u32],
) -> bool
    ensures { LinkedLookup values.now state.now variable value answer.old result answer.new }
{
    linked::moheguzari_lookup(values, state, variable, value, answer)
}
