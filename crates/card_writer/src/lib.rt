// A block of a card, written in 512 bytes: begun with its number, given its records one after the other, and ended with its check. What a sheet
// holds is in specs/Sheets.antt; what a block is written as is in the crate `cards`.
#![tactic(auto)]

ghost use Rattle.std.specs.Prelude.{◌≡◌, ℕ, ◌+◌, ◌≤◌, ◌<◌, List, [], ◌∷◌, ◌++◌, length};
ghost use Rattle.std.proofs.lemmas.List.Edits.{sets};
ghost use Rattle.cards.specs.Moments.{Record};
ghost use Rattle.cards.specs.Blocks.{block_bytes};
ghost use Rattle.card_records.specs.Facts.{record_from};
ghost use Rattle.card_writer.specs.Sheets.{block_with, Holding};

use card_block::sums::check_of;
use card_records::{Fact, put_fact, put_number};

// A block that is being written: its bytes, but for the check, and the count of its records.
#[derive(Clone, Copy)]
pub struct Sheet {
    bytes: [u8; 512],
    pub records: usize,
}

impl Sheet {
    // A block with its number, and no record.
    pub fn begin(number: u32) -> Sheet
        ensures held { Holding result number [] }
        ensures counted { result.records ≡ 0 }
    {
        let mut bytes = [0u8; 512];
        bytes[0] = 75;
        put_number(&mut bytes, 2, number);
        Sheet { bytes, records: 0 }
    }

    // One record more, behind those that are there.
    pub fn add(&mut self, f: Fact)
        requires { self.old.records < 21 }
        ensures held { (n : ℕ) (rs : List Record) → Holding self.old n rs → Holding self.new n (rs ++ (record_from f ∷ [])) }
        ensures counted { self.new.records ≡ self.old.records + 1 }
    {
        let i = self.records;
        put_fact(&mut self.bytes, 6 + 24 * i, f);
        self.bytes[1] = (i + 1) as u8;
        self.records = i + 1;
    }

    // The block, with its check.
    pub fn end(self) -> [u8; 512]
        ensures { (n : ℕ) (rs : List Record) → Holding self n rs → result ≡ block_bytes (block_with n rs) }
    {
        let mut block = self.bytes;
        let sums = check_of(&block[..510]);
        block[510] = sums.first as u8;
        block[511] = sums.second as u8;
        block
    }
}

// Copies a block to a place.
pub fn copy_block(block: &[u8; 512], out: &mut [u8], at: usize)
    requires { at + 512 ≤ length out.old }
    ensures { out.new ≡ sets out.old at block.now }
{
    out[at..at + 512].copy_from_slice(block);
}
