// A row of a rule text's formula, and its nine numbers.
ghost use Rattle.std.specs.Prelude.{◌≡◌};
ghost use Rattle.text.specs.Parts.{nine};
ghost use Rattle.rowing.specs.Framing.{row_of};

// What a row says of earlier rows, which are told by their places; `Exists` has a variable's slot first. The row of an atom is made of its
// arguments by the crate atomic.
#[derive(Clone, Copy, PartialEq, Eq)]
pub enum Row {
    Truth,
    Both(u8, u8),
    Neg(u8),
    Since(u8, u8),
    Previous(u8),
    Exists(u8, u8),
}

impl Row {
    // The numbers of the row: kind, p, q, and no arguments.
    pub fn numbers(self) -> [u32; 9]
        ensures { result ≡ nine (row_of self) }
    {
        let (kind, p, q) = match self {
            Row::Truth => (1, 0, 0),
            Row::Both(left, right) => (3, left, right),
            Row::Neg(row) => (4, row, 0),
            Row::Since(left, right) => (5, left, right),
            Row::Previous(row) => (6, row, 0),
            Row::Exists(slot, row) => (7, slot, row),
        };
        [kind, u32::from(p), u32::from(q), 0, 0, 0, 0, 0, 0]
    }
}
