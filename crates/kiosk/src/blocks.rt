// A block of the input, judged line by line, with what its lines tell.
ghost use Rattle.std.specs.Prelude.{◌≡◌, ◌+◌, max, ◌≤◌, ◌<◌, length};
ghost use Rattle.session.specs.Sessions.{Sound};

use feed::Held;
use session::{Session, Tables};

// All that is kept from block to block: the session, what is held of a line, and the tables.
#[derive(Drop)]
pub struct Desk {
    pub session: Session,
    pub held: Held,
    pub tables: Tables,
    ghost sound: { Sound session },
}

impl Desk {
    ghost use Rattle.kiosk.specs.Desks.{shown, line_desk, line_puts, Gives, Served, Ended, Fills};
    ghost use Rattle.kiosk.specs.Runs.{opened_desk};

    // Before the first block.
    pub fn new() -> Self
        ensures { shown result ≡ opened_desk }
    {
        Desk {
            session: session::opened(),
            held: Held::new(),
            tables: Tables {
                rows: [0; 585],
                nodes: [0; 1536],
                values: [0; 4092],
                work: [0; 9216],
            },
        }
    }

    // The line that is held is judged, and what it tells is put out from `at` on; the answer is the place past that.
    fn serve(&mut self, out: &mut [u8; 76800], at: usize) -> usize
        requires few { self.old.session.ordinal < 18446744073709551615 }
        requires room { at + 75 ≤ 76800 }
        ensures counted { self.new.session.ordinal ≤ self.old.session.ordinal + 1 }
        ensures near { result ≤ at + 75 }
        ensures served { Gives (line_desk (shown self.old)) (line_puts (shown self.old)) out.old at (shown self.new) out.new result }
    {
        let found = self.held.read();
        let after = session::line(self.session, found, &mut self.tables);
        self.session = after.session;
        self.held.clear();
        answers::put_told(out, at, after.told)
    }

    // The last line needs no line end.
    fn last(&mut self, out: &mut [u8; 76800]) -> usize
        requires { self.old.session.ordinal < 18446744073709551615 }
        ensures counted { self.new.session.ordinal ≤ self.old.session.ordinal + 1 }
        ensures near { result ≤ 75 }
        ensures served { Served (shown self.old) out.old (shown self.new) out.new result }
    {
        if self.held.count == 0 {
            return 0;
        }
        self.serve(out, 0)
    }

    // The end of the input: the last line, and then what is due.
    fn rest(&mut self, out: &mut [u8; 76800]) -> usize
        requires { self.old.session.ordinal < 18446744073709551615 }
        ensures counted { self.new.session.ordinal ≤ self.old.session.ordinal + 1 }
        ensures near { result ≤ 150 }
        ensures ended { Ended (shown self.old) out.old (shown self.new) out.new result }
    {
        let next = self.last(out);
        let after = session::ready(
            self.session,
            &self.tables.rows,
            &mut self.tables.nodes,
            &mut self.tables.values,
        );
        self.session = after.session;
        self.held.clear();
        answers::put_told(out, next, after.told)
    }

    // The lines that end in the block, one after the other; of no bytes, the end of the input. The answer is how many bytes are put out.
    pub fn lines_of(&mut self, block: &[u8], out: &mut [u8; 76800]) -> usize
        requires few { self.old.session.ordinal + length block.now < 18446744073709551615 }
        requires long { length block.now ≤ 1024 }
        ensures counted { self.new.session.ordinal ≤ self.old.session.ordinal + max (length block.now) 1 }
        ensures near { result ≤ 76800 }
        ensures fills { Fills (shown self.old) block.now out.old (shown self.new) out.new result }
    {
        if block.is_empty() {
            return self.rest(out);
        }
        let mut at = 0;
        let mut rest = block;
        while let Some(past) = self.held.next(rest) {
            at = self.serve(out, at);
            rest = &rest[past..];
        }
        at
    }
}
