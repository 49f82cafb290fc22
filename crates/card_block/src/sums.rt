// The check of a block, numbers of four bytes, and unused bytes.
ghost use Rattle.std.specs.Prelude.{◌+◌, ◌≤◌, ◌≡◌, ◌∷◌, [], length, take, drop};
ghost use Rattle.cards.specs.Bytes.{check, number_of, same};
ghost use Rattle.card_block.specs.Shapes.{unused};

// The two sums of a check.
#[derive(Clone, Copy, PartialEq, Eq)]
pub struct Sums {
    pub first: u32,
    pub second: u32,
}

// The check of bytes: two sums modulo 255.
pub fn check_of(bytes: &[u8]) -> Sums
    ensures { check bytes.now ≡ result.first ∷ result.second ∷ [] }
{
    let mut first = 0;
    let mut second = 0;
    for byte in bytes {
        first = (first + u32::from(*byte)) % 255;
        second = (second + first) % 255;
    }
    Sums { first, second }
}

// The last two of 512 bytes are the check of those before them.
pub fn checked(piece: &[u8]) -> bool
    requires { length piece.now ≡ 512 }
    ensures { result ≡ same (check (take 510 piece.now)) (drop 510 piece.now) }
{
    let sums = check_of(&piece[..510]);
    sums.first == u32::from(piece[510]) && sums.second == u32::from(piece[511])
}

// The number that four bytes at a place say, least byte first.
pub fn number_at(s: &[u8], at: usize) -> u32
    requires { at + 4 ≤ length s.now }
    ensures { result ≡ number_of (take 4 (drop at s.now)) }
{
    u32::from_le_bytes([s[at], s[at + 1], s[at + 2], s[at + 3]])
}

// The bytes are all 0.
pub fn zeros(bytes: &[u8]) -> bool
    ensures { result ≡ unused bytes.now }
{
    bytes.iter().all(|b| *b == 0)
}
