// The lines of the output, put into a slice of bytes. Which bytes each line has is in specs/Answers.antt.
#![tactic(auto)]

ghost use Rattle.std.specs.Prelude.{◌≡◌, ◌∷◌, ◌+◌, ◌≤◌, length};
ghost use Rattle.lines.specs.Numeral.{numeral};
ghost use Rattle.answers.specs.Answers.{Put, word_line, word, headed, answered, answer_line, said_line, told_lines};
ghost use Rattle.answers.specs.Sheets.{Puts};

use meaning::Answer;

// What is said of a line of the input.
#[derive(Clone, Copy)]
pub enum Said {
    // That the line does not read.
    Bad,
    // That the start is refused.
    NoStart { number: u32, place: u32 },
    // An event's ordinal and its answer.
    Event { ordinal: u64, answer: Answer },
}

// What is put out for a line of the input: the header where it starts the rule, and then what is said of the line, if anything is.
#[derive(Clone, Copy)]
pub struct Told {
    pub header: bool,
    pub said: Option<Said>,
}

// A slice that texts are put into, one behind the other, and the place past them.
#[derive(Drop)]
struct Sheet<'a> {
    out: &'a mut [u8],
    at: usize,
}

impl<'a> Sheet<'a> {
    // The bytes.
    fn put(&mut self, bytes: &[u8])
        requires { self.old.at + length bytes.now ≤ length self.old.out.now }
        ensures same_reference { self.new.out.ghost_name ≡ self.old.out.ghost_name }
        ensures puts { Puts self.old (bytes.now) self.new }
    {
        let next = self.at + bytes.len();
        self.out[self.at..next].copy_from_slice(bytes);
        self.at = next;
    }

    // A number's digits.
    fn put_number(&mut self, n: u64)
        requires { self.old.at + length (numeral n) ≤ length self.old.out.now }
        ensures same_reference { self.new.out.ghost_name ≡ self.old.out.ghost_name }
        ensures puts { Puts self.old (numeral n) self.new }
    {
        if n < 10 {
            self.put(&[b'0' + n as u8]);
            return;
        }
        self.put_number(n / 10);
        self.put(&[b'0' + (n % 10) as u8]);
    }

    // A number after a space.
    fn put_spaced(&mut self, n: u32)
        requires { self.old.at + 11 ≤ length self.old.out.now }
        ensures same_reference { self.new.out.ghost_name ≡ self.old.out.ghost_name }
        ensures puts { Puts self.old (32 ∷ numeral n) self.new }
        ensures upper_bound { self.new.at ≤ self.old.at + 11 }
    {
        self.put(b" ");
        self.put_number(u64::from(n));
    }

    // A word, two numbers and a line end.
    fn put_line(&mut self, word: &[u8], a: u32, b: u32)
        requires { self.old.at + (length word.now + 23) ≤ length self.old.out.now }
        ensures same_reference { self.new.out.ghost_name ≡ self.old.out.ghost_name }
        ensures puts { Puts self.old (word_line word.now a b) self.new }
        ensures upper_bound { self.new.at ≤ self.old.at + (length word.now + 23) }
    {
        self.put(word);
        self.put_spaced(a);
        self.put_spaced(b);
        self.put(b"\n");
    }

    // A verdict, the kept nodes and the room.
    fn put_verdict(&mut self, yes: bool, kept: u32, room: u32)
        requires { self.old.at + 31 ≤ length self.old.out.now }
        ensures same_reference { self.new.out.ghost_name ≡ self.old.out.ghost_name }
        ensures puts { Puts self.old (word_line (word yes) kept room) self.new }
        ensures upper_bound { self.new.at ≤ self.old.at + 31 }
    {
        if yes {
            return self.put_line(b" yes", kept, room);
        }
        self.put_line(b" no", kept, room)
    }

    // What follows the ordinal of an event.
    fn put_answered(&mut self, answer: Answer)
        requires { self.old.at + 31 ≤ length self.old.out.now }
        ensures same_reference { self.new.out.ghost_name ≡ self.old.out.ghost_name }
        ensures puts { Puts self.old (answered answer) self.new }
        ensures upper_bound { self.new.at ≤ self.old.at + 31 }
    {
        match answer {
            Answer::Verdict(yes, kept, room) => self.put_verdict(yes, kept, room),
            Answer::Refused(number, place) => self.put_line(b" refused", number, place),
            Answer::Started => self.put(b"\n"),
        }
    }

    // The line of an event: its ordinal and its answer.
    fn put_answer(&mut self, ordinal: u64, answer: Answer)
        requires { self.old.at + 51 ≤ length self.old.out.now }
        ensures same_reference { self.new.out.ghost_name ≡ self.old.out.ghost_name }
        ensures puts { Puts self.old (answer_line ordinal answer) self.new }
        ensures upper_bound { self.new.at ≤ self.old.at + 51 }
    {
        self.put_number(ordinal);
        self.put_answered(answer);
    }

    // The header, where it is asked for.
    fn put_header(&mut self, header: bool)
        requires { self.old.at + 24 ≤ length self.old.out.now }
        ensures same_reference { self.new.out.ghost_name ≡ self.old.out.ghost_name }
        ensures puts { Puts self.old (headed header) self.new }
        ensures upper_bound { self.new.at ≤ self.old.at + 24 }
    {
        if header {
            self.put(b"event verdict kept room\n");
        }
    }

    // What is said of a line, if anything is.
    fn put_said(&mut self, said: Option<Said>)
        requires { self.old.at + 51 ≤ length self.old.out.now }
        ensures same_reference { self.new.out.ghost_name ≡ self.old.out.ghost_name }
        ensures puts { Puts self.old (said_line said) self.new }
        ensures upper_bound { self.new.at ≤ self.old.at + 51 }
    {
        let Some(said) = said else {
            return;
        };
        match said {
            Said::Bad => self.put(b"bad line\n"),
            Said::NoStart { number, place } => self.put_line(b"no start", number, place),
            Said::Event { ordinal, answer } => self.put_answer(ordinal, answer),
        }
    }
}

// All that is put out for a line, from `at` on; the answer is the place past it.
pub fn put_told(out: &mut [u8], at: usize, told: Told) -> usize
    requires { at + 75 ≤ length out.old }
    ensures put { Put out.old at (told_lines told) out.new result }
    ensures upper_bound { result ≤ at + 75 }
{
    let mut sheet = Sheet { out, at };
    sheet.put_header(told.header);
    sheet.put_said(told.said);
    sheet.at
}
