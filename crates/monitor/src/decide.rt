// What is decided of a call: k, the rule and the lengths (refusals 1 to 3). The first refusal that applies is given.
ghost use Rattle.std.specs.Prelude.{◌≡◌, ◌&&◌, IfOk};
ghost use Rattle.meaning.specs.Rows.{check_rows};
ghost use Rattle.meaning.specs.Outcome.{k_right, nodes_right, values_right, judge_start};
ghost use Rattle.rule.specs.Checking.{Free};
ghost use Rattle.monitor.specs.Decisions.{decision_of};

use crate::lent;
use crate::refusals::Refusal;

// Refusals 1 to 3, in this order; where none applies, the free variables of each row.
pub fn judge(k: u32, rows: &[u32], nodes: &[u32], values: &[u32]) -> Result<[u32; 64], Refusal>
    ensures decides { decision_of result ≡ judge_start (k_right k) (check_rows rows.now) (nodes_right nodes.now && values_right k values.now) }
    ensures free { IfOk result (Free rows.now) }
{
    if !numbers::k_right(k) {
        return Err(Refusal::K);
    }
    let free = rule::check(rows)?;
    if !lent::lengths_right(k, nodes, values) {
        return Err(Refusal::Lengths);
    }
    Ok(free)
}
