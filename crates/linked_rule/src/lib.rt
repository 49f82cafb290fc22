// Rules typed as text for programs in C and Rust: one call, with the answer as 141 numbers. The call is total. How the answer is laid out
// and what the call leaves is in specs/Ruling.antt. Assumes nothing.
#![tactic(auto)]

mod packing;

ghost use Rattle.linked_rule.specs.Ruling.{LinkedRule};

use translate::translate;

// Translates a text. False, with nothing written, where the answer has not 141 numbers.
pub fn moheguzari_rule(text: &[u8], rows: &mut [u32], answer: &mut [u32]) -> bool
    ensures { LinkedRule text.now rows.old answer.old result rows.new answer.new }
{
    if answer.len() != 141 {
        return false;
    }
    packing::put(translate(text, rows), answer);
    true
}
