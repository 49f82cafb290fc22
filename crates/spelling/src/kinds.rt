// What a word can be. The names and constants differ by their bytes, the others are one word each.
#[derive(Clone, Copy, PartialEq, Eq)]
pub enum Kind {
    Name,
    Constant,
    True,
    False,
    Once,
    Historically,
    Before,
    Not,
    Since,
    And,
    Or,
    Implies,
    Forall,
    Exists,
    Open,
    Close,
    Comma,
    Dot,
}
