// Reduced ordered decision diagrams in a slice of numbers. The node at place j is nodes[3 * j], its level,
// nodes[3 * j + 1] and nodes[3 * j + 2], the references for bit 0 and bit 1. References 0 and 1 are no and yes,
// and j + 2 is the node at place j. A row's new diagram is made by the walk that its instruction asks for (`row::row`). What a whole
// event makes of the diagrams is defined in specs/Steps.antt. Assumes nothing.
#![tactic(auto)]

pub mod row;
pub mod turns;

// What the new diagram of a row that is no atom is: yes; of rows worked before it the and, the complement, the since with its own
// old diagram; the old diagram of a row; or a row's diagram without the bits of a variable, which is named first. A row that is
// not worked yet reads as no.
#[derive(Clone, Copy)]
pub enum Instruction {
    Yes,
    And(u32, u32),
    Not(u32),
    Since(u32, u32),
    Old(u32),
    Drop(u32, u32),
}

// What a step that is done tells: the count of kept nodes and the room.
#[derive(Clone, Copy)]
pub struct Done {
    pub kept: u32,
    pub room: u32,
}

// Why a step is refused: the numbers or lengths are unfit, the diagrams are not well kept, or the room is over the slice's.
#[derive(Clone, Copy, PartialEq, Eq)]
pub enum Refused {
    Unfit,
    Bad,
    Full,
}

// Why the check alone refuses.
#[derive(Clone, Copy, PartialEq, Eq)]
pub enum Unformed {
    Unfit,
    Bad,
}
