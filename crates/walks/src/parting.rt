// Three diagrams that are walked together, and where they part. Assumes that the first n nodes are a table.
ghost use Rattle.std.specs.Prelude.{◌+◌, ◌<◌};
ghost use Rattle.nodes.specs.Nodes.{Table};
ghost use Rattle.walks.specs.Walks.{Forks};

use making::lent::Lent;
use making::table::{sides, top};

// Three diagrams of a since: r, or l and o. Where l is no, the result is r.
#[derive(Clone, Copy)]
pub struct Three {
    pub l: u32,
    pub r: u32,
    pub o: u32,
}

// Where three diagrams part: the first level that one of them asks, and their sides there.
#[derive(Clone, Copy)]
pub struct Fork {
    pub level: u32,
    pub low: Three,
    pub high: Three,
}

// Where the three diagrams of x part.
pub fn part(lent: &Lent<'_>, x: Three) -> Fork
    requires table { Table lent.now.nodes.now lent.now.count }
    requires l_bound { (x.l < lent.now.count + 2) × (x.r < lent.now.count + 2) × (x.o < lent.now.count + 2) }
    ensures { Forks lent.now.nodes.now lent.now.count x.l x.r x.o result.level result.low.l result.low.r result.low.o result.high.l result.high.r result.high.o }
{
    let nodes = &*lent.nodes;
    let n = lent.count;
    let level = top(nodes, n, x.l)
        .min(top(nodes, n, x.r))
        .min(top(nodes, n, x.o));
    let l = sides(nodes, n, x.l, level);
    let r = sides(nodes, n, x.r, level);
    let o = sides(nodes, n, x.o, level);
    Fork {
        level,
        low: Three {
            l: l.low,
            r: r.low,
            o: o.low,
        },
        high: Three {
            l: l.high,
            r: r.high,
            o: o.high,
        },
    }
}
