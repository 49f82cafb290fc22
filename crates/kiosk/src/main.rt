// The kiosk's program: reads a rule and its events from standard input, line by line, and writes an answer for each event.
// Input comes in blocks, and the answers to the lines of a block are written together before the next block is asked for,
// so whoever types a line sees its answer. No memory is asked for: an input of any length is judged in these arrays.
#![tactic(auto)]

mod blocks;

ghost use Rattle.std.specs.Prelude.{◌≤◌, IfSome};
ghost use Rattle.kiosk.specs.Runs.{Answers};

use blocks::Desk;
use std::io::{Read, Stderr, Stdin, Stdout, Write};

// Writes to standard error.
fn say(mut stderr: Stderr, words: &[u8]) {
    let _ = stderr.write_all(words);
}

// Reads a block, of no more bytes than may still come. No bytes are the end of the input; none at all, where nothing that counts was read.
fn fill(mut stdin: Stdin, stderr: Stderr, block: &mut [u8; 1024], left: u64) -> Option<usize>
    ensures { IfSome result (λ n. (n ≤ 1024) × (n ≤ left)) }
{
    let Ok(n) = stdin.read(block) else {
        say(stderr, b"kiosk: the input cannot be read\n");
        return None;
    };
    if left < n as u64 {
        return None;
    }
    Some(n)
}

// Writes the answers, which are what a block puts out, and says so where it cannot.
fn write_out(mut stdout: Stdout, stderr: Stderr, answers: &[u8]) -> bool
    requires { Answers answers.now }
{
    if stdout.write_all(answers).is_ok() {
        return true;
    }
    say(stderr, b"kiosk: the answers cannot be written\n");
    false
}

// Reads block after block, to the end of the input, to the run's last line, or to where the answers cannot be written. A proved loop has to
// end, and nothing says that the input does: the bytes are counted down from a number that no run uses up, which also keeps the count of
// events from running over.
fn main(rt: HostRuntime) {
    let stdin = rt.stdin();
    let stdout = rt.stdout();
    let stderr = rt.stderr();
    let mut block = [0u8; 1024];
    let mut out = [0u8; 76800];
    let mut desk = Desk::new();
    let mut left = u64::MAX - 1;
    while 0 < left {
        let Some(n) = fill(stdin, stderr, &mut block, left) else {
            return;
        };
        let at = desk.lines_of(&block[..n], &mut out);
        if !write_out(stdout, stderr, &out[..at]) {
            return;
        }
        if n == 0 || session::over(desk.session) {
            return;
        }
        left -= n as u64;
    }
}
