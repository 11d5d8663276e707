// Finds the line of a code in a directory file: find_line FILE CODE. A CODE that starts with 0x is in hex.
#![tactic(auto)]

use beginnings::first;
use files::{LONGEST_FILE, read_argument};
use reader::{lookup, open};
use std::rt::Env;
use telling::{
    LONGEST_ARGUMENT, Tell, argument, argument_count, refused, say, say_argument, say_bytes,
    say_failed,
};
use texts::{MOST_KEPT, read_code};

// How many arguments there are, with the program's own name, and the place of each.
const ARGUMENTS: usize = 3;

const FILE: usize = 1;

const CODE: usize = 2;

fn look_up(rt: &(impl Print + Tell), file: &[u8], code: &[u8]) {
    let printed = match lookup(file, code) {
        Ok(Some(line)) => rt.println(line),
        Ok(None) => rt.println("unknown"),
        Err(refusal) => {
            say(rt, b"CODE");
            refused(rt, refusal.reason.number(), refusal.place);
            Ok(())
        }
    };
    if let Err(error) = printed {
        say_failed(rt, b"standard output", error);
    }
}

// Looks up what CODE stands for.
fn find_code(rt: &(impl Env + Print + Tell), file: &[u8]) {
    let mut buffer = [0u8; LONGEST_ARGUMENT];
    let word = argument(rt, CODE, &mut buffer);
    let mut code = [0u8; MOST_KEPT];
    match read_code(word, &mut code) {
        Some(size) => look_up(rt, file, first(&code, size)),
        None => {
            say(rt, b"CODE is ");
            say_bytes(rt, word);
            say(
                rt,
                b", which is not hex: after 0x come pairs of the digits 0 to 9 and a to f\n",
            );
        }
    }
}

// A file that does not open gives no lines.
fn find_in(rt: &(impl Env + Print + Tell), file: &[u8]) {
    match open(file) {
        Ok(_) => find_code(rt, file),
        Err(refusal) => {
            say_argument(rt, FILE);
            refused(rt, refusal.reason.number(), refusal.place);
        }
    }
}

fn main(rt: HostRuntime) {
    if argument_count(&rt) != ARGUMENTS {
        say(&rt, b"usage: find_line FILE CODE\n");
        return;
    }
    let mut buffer = [0u8; LONGEST_FILE];
    if let Ok(file) = read_argument(&rt, FILE, &mut buffer) {
        find_in(&rt, file);
    }
}
