// The call of crate linked_rule for programs in C and Rust that link it: a static library, and nothing that linked_rule does not promise.
// A slice comes as a pointer and a length (include/moheguzari_rule.h).
#![tactic(auto)]

ghost use Rattle.linked_rule.specs.Ruling.{LinkedRule};

// Translates a text.
#[unsafe(no_mangle)]
pub extern "C" fn moheguzari_rule(text: &[u8], rows: &mut [u32], answer: &mut [u32]) -> bool
    ensures { LinkedRule text.now rows.old answer.old result rows.new answer.new }
{
    linked_rule::moheguzari_rule(text, rows, answer)
}
