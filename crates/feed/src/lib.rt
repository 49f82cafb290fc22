// A block of the input, taken apart into lines. A line may begin in one block and end in another: its bytes so far are held.
// No right line is longer than 100 bytes, so a longer one is known to be bad by its first 101 bytes, and the rest is not held.
#![tactic(auto)]

ghost use Rattle.std.specs.Prelude.{◌≡◌, ◌≤◌, ◌==◌, length, take, position, replicate};
ghost use Rattle.lines.specs.Format.{Reads};
ghost use Rattle.feed.specs.Feeds.{holding, hold_bytes, Passed};

use lines::Line;

// The bytes of a line that has begun, as far as they are held: the first `count` of `line`.
#[derive(Clone, Copy)]
pub struct Held {
    pub line: [u8; 101],
    pub count: usize,
    ghost few: { count ≤ 101 },
}

// The place of the first line end.
fn line_end(bytes: &[u8]) -> Option<usize>
    ensures { result ≡ position (λ b. b == 10) bytes.now }
{
    bytes.iter().position(|b| *b == b'\n')
}

// The line that the first `held` bytes are, read.
pub fn read(line: &[u8], held: usize) -> Option<Line>
    requires { held ≤ length line.now }
    ensures { Reads (take held line.now) result }
{
    lines::read_line(&line[..held])
}

impl Held {
    // No byte of a line.
    pub fn new() -> Self
        ensures { holding result.count result.line ≡ holding 0 (replicate 101 0) }
    {
        Held {
            line: [0; 101],
            count: 0,
        }
    }

    // The next line begins.
    pub fn clear(&mut self)
        ensures { holding self.new.count self.new.line ≡ holding 0 self.old.line }
    {
        self.count = 0;
    }

    // Holds the bytes, as far as there is room.
    fn hold(&mut self, bytes: &[u8])
        ensures { holding self.new.count self.new.line ≡ hold_bytes (holding self.old.count self.old.line) bytes.now }
    {
        let room = self.line.len() - self.count;
        let taken = room.min(bytes.len());
        let next = self.count + taken;
        self.line[self.count..next].copy_from_slice(&bytes[..taken]);
        self.count = next;
    }

    // Holds the bytes up to the first line end, and gives the place past it; or all of them, where none of them is a line end.
    pub fn next(&mut self, bytes: &[u8]) -> Option<usize>
        ensures { Passed bytes.now (holding self.old.count self.old.line) result (holding self.new.count self.new.line) }
    {
        match line_end(bytes) {
            Some(end) => {
                self.hold(&bytes[..end]);
                Some(end + 1)
            }
            None => {
                self.hold(bytes);
                None
            }
        }
    }

    // The line that is held, read.
    pub fn read(&self) -> Option<Line>
        ensures { Reads (take self.now.count self.now.line) result }
    {
        read(&self.line, self.count)
    }
}
