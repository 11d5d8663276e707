// Lists a directory file: reads the one that its argument names, or standard input without one, and writes a line for each code, or the line of a refusal.
// The same program stands in lister, lister_none and lister_refused, since a crate is run on one input; the gate compares the three files by `cmp`.
#![tactic(auto)]

use files::{LONGEST_FILE, read_argument, read_input};
use listing::{LONGEST_LISTING, list};
use std::cmp::Ordering;
use std::rt::{Env, Files};
use telling::{Tell, Told, argument_count, say, say_failed};

// How many arguments there are with a file's name, the program's own name among them, and its place.
const ARGUMENTS: usize = 2;

const FILE: usize = 1;

fn read<'a>(
    rt: &(impl Env + Files + Input + Tell),
    buffer: &'a mut [u8],
) -> Result<&'a [u8], Told> {
    match argument_count(rt).cmp(&ARGUMENTS) {
        Ordering::Less => read_input(rt, buffer),
        Ordering::Equal => read_argument(rt, FILE, buffer),
        Ordering::Greater => {
            say(rt, b"usage: lister [FILE]\n");
            Err(Told)
        }
    }
}

fn main(rt: HostRuntime) {
    let mut buffer = [0u8; LONGEST_FILE];
    let Ok(file) = read(&rt, &mut buffer) else {
        return;
    };
    let mut text = [0u8; LONGEST_LISTING];
    let size = list(file, &mut text);
    if let Err(error) = rt.write_all(&text[..size]) {
        say_failed(&rt, b"standard output", error);
    }
}
