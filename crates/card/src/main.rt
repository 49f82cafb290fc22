// Cards from the command line: `read FILE`, `write FILE` and `mend IN OUT`. The first argument names a file that is written only where all went
// well; the script ./card hands one over and turns it into a status.
#![tactic(auto)]

use card_text::{Said, Streams, argument, done, given, say};
use std::env::Env;
use std::fs::File;
use std::rt::Files;

// Says how the program is used.
fn usage(streams: Streams) -> Result<(), Said> {
    say(
        streams.stderr,
        b"use: card read FILE | card write FILE < LINES | card mend IN OUT\n",
    );
    Err(Said)
}

// A command with one name.
fn with_one<R: Env + Files<File = File>>(
    rt: &R,
    streams: Streams,
    command: &[u8],
) -> Result<(), Said> {
    let mut words = [0u8; 4096];
    let Some(name) = argument(rt, 3, &mut words) else {
        return usage(streams);
    };
    match command {
        b"read" => card_show::show(rt, streams, name),
        b"write" => card_lines::write(rt, streams, name),
        _ => usage(streams),
    }
}

// A command with two names.
fn with_two<R: Env + Files<File = File>>(
    rt: &R,
    streams: Streams,
    command: &[u8],
) -> Result<(), Said> {
    let mut one = [0u8; 4096];
    let mut other = [0u8; 4096];
    let (Some(from), Some(to)) = (argument(rt, 3, &mut one), argument(rt, 4, &mut other)) else {
        return usage(streams);
    };
    match command {
        b"mend" => card_mend::mend(rt, streams, from, to),
        _ => usage(streams),
    }
}

// The command that the second argument names.
fn run<R: Env + Files<File = File>>(rt: &R, streams: Streams) -> Result<(), Said> {
    let mut words = [0u8; 4096];
    let Some(command) = argument(rt, 2, &mut words) else {
        return usage(streams);
    };
    if !given(rt, 3) || given(rt, 5) {
        return usage(streams);
    }
    if given(rt, 4) {
        with_two(rt, streams, command)
    } else {
        with_one(rt, streams, command)
    }
}

fn main(rt: HostRuntime) {
    let streams = Streams {
        stdin: rt.stdin(),
        stdout: rt.stdout(),
        stderr: rt.stderr(),
    };
    if run(&rt, streams).is_ok() {
        done(&rt);
    }
}
