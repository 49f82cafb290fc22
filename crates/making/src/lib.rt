// Find-or-make by the chains of nodes, the memory of results, and a fact's numbers put into a diagram. Assumes that the first n
// nodes are a table.
#![tactic(auto)]

pub mod into;
pub mod lent;
pub mod memory;
pub mod table;

// What a walk answers where the slice had room for its nodes: the count of nodes and the reference of the result.
#[derive(Clone, Copy)]
pub struct Made {
    pub count: u32,
    pub reference: u32,
}

// A number that stands for a value. What a variable's bits are to show is a number, or any.
#[derive(Clone, Copy)]
pub struct Number(pub u32);
