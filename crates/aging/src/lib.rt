// The walks over age diagrams, for rows with a time limit. An age diagram has the bindings' levels, the first 4 * k, and under them at the 11
// levels from 4 * k on the one age of the binding, least bit first. Assumes that the first n nodes are a table.
#![tactic(auto)]

pub mod age;
pub mod walk;

// The time limit of a row: within d, or longer than d.
#[derive(Clone, Copy)]
pub enum Bound {
    Within(u32),
    Longer(u32),
}

// What a walk makes: the age diagram after a step, or the row's diagram from its ages.
#[derive(Clone, Copy)]
pub enum Task {
    Ages(Bound, u32),
    Ripe(Bound),
}
