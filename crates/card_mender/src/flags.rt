// The first and the last flagged record of a block.
ghost use Rattle.std.specs.Prelude.{◌≡◌, ◌+◌, ◌-◌, ◌*◌, ◌≤◌, length, drop};
ghost use Rattle.card_block.specs.Shapes.{records_from};
ghost use Rattle.card_mender.specs.Weighing.{first_count, whole_count};

// The count of records up to and including the first flagged one, or of all where none is flagged.
pub fn past_first(piece: &[u8], records: usize) -> usize
    requires { 6 + 24 * records ≤ length piece.now }
    ensures { result ≡ first_count (records_from records (drop 6 piece.now)) }
{
    for i in 0..records {
        if piece[6 + 24 * i + 9] == 1 {
            return i + 1;
        }
    }
    records
}

// The place past the last flagged record from `from` on, or `from` where none is flagged.
pub fn past_last(piece: &[u8], from: usize, records: usize) -> usize
    requires { (from ≤ records) × (6 + 24 * records ≤ length piece.now) }
    ensures { result ≡ from + whole_count (records_from (records - from) (drop (6 + 24 * from) piece.now)) }
{
    let mut last = from;
    for i in from..records {
        if piece[6 + 24 * i + 9] == 1 {
            last = i + 1;
        }
    }
    last
}
