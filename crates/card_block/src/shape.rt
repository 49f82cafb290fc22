// The shape of a record and of a block, by tests of the bytes: proofs/ShapeLaws.antt shows that they are those of what it is written as.
ghost use Rattle.std.specs.Prelude.{◌≡◌, length, take};
ghost use Rattle.cards.specs.Bytes.{same};
ghost use Rattle.cards.specs.Blocks.{body, block_of};
ghost use Rattle.card_block.specs.Shapes.{record_shaped};

use crate::records;
use crate::sums::zeros;

// 24 bytes are a record's: at most 3 values, a flag of 0 or 1, two zero bytes, and 0 past the values.
fn record_shaped(bytes: &[u8]) -> bool
    requires { length bytes.now ≡ 24 }
    ensures { result ≡ record_shaped bytes.now }
{
    bytes[8] <= 3
        && bytes[9] <= 1
        && bytes[10] == 0
        && bytes[11] == 0
        && zeros(&bytes[12 + 4 * usize::from(bytes[8])..])
}

// 512 bytes with a good check have a good shape: 75, at most 21 records, each of a good shape, and 0 past them.
pub fn shaped(piece: &[u8]) -> bool
    requires { length piece.now ≡ 512 }
    ensures { result ≡ same (body (block_of piece.now)) (take 510 piece.now) }
{
    let count = records(piece);
    if piece[0] != 75 || 21 < count {
        return false;
    }
    for i in 0..count {
        let at = 6 + 24 * i;
        if !record_shaped(&piece[at..at + 24]) {
            return false;
        }
    }
    zeros(&piece[6 + 24 * count..510])
}
