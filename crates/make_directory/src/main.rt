// Makes a directory file out of two texts, one of codes and one of weights: make_directory CODES WEIGHTS R V FILE.
#![tactic(auto)]

mod arguments; // arguments.rt: what the arguments are, and what they ask for
mod words; // words.rt: why nothing was made
mod done; // done.rt: the file, written, and what is said of it

use arguments::{ARGUMENTS, Asked, CODES, LONGEST_TEXT, MOST_SIZE, R, TEXT_ROOM, V, WEIGHTS};
use directory::Header;
use done::{LONGEST_DIRECTORY, LONGEST_RECORDS, write_file};
use given::{number_argument, text_argument};
use making::make;
use std::rt::{Env, Files};
use telling::{Tell, Told, argument_count, say};
use texts::{MOST_KEPT, MOST_LINES};
use words::tell_not_made;

fn make_asked(
    rt: &(impl Env + Files + Print + Tell),
    asked: &Asked,
    file: &mut [u8],
) -> Result<(), Told> {
    let r = asked.r as usize;
    let v = asked.v as usize;
    let n = make(asked.codes, asked.weights, r, v, file).map_err(|why| tell_not_made(
        rt, asked, why,
    ))?;
    write_file(rt, Header { n, r, v }, file)
}

fn run(
    rt: &(impl Env + Files + Print + Tell),
    codes: &mut [u8],
    weights: &mut [u8],
    file: &mut [u8],
) -> Result<(), Told> {
    let r = number_argument(rt, R, b"R", MOST_SIZE)?;
    let v = number_argument(rt, V, b"V", MOST_SIZE)?;
    let codes = text_argument(rt, CODES, codes, LONGEST_TEXT)?;
    let weights = text_argument(rt, WEIGHTS, weights, LONGEST_TEXT)?;
    let asked = Asked {
        codes,
        weights,
        r,
        v,
    };
    make_asked(rt, &asked, file)
}

fn main(rt: HostRuntime) {
    if argument_count(&rt) != ARGUMENTS {
        say(&rt, b"usage: make_directory CODES WEIGHTS R V FILE\n");
        return;
    }
    // A longer text fills the room that it is read into, and the longest directory has its own.
    prove!(LONGEST_TEXT == MOST_LINES * (4 + 2 * MOST_KEPT) && TEXT_ROOM == LONGEST_TEXT + 1);
    prove!(LONGEST_DIRECTORY == LONGEST_RECORDS);
    let mut codes = [0u8; TEXT_ROOM];
    let mut weights = [0u8; TEXT_ROOM];
    let mut file = [0u8; LONGEST_DIRECTORY];
    // What failed was told.
    let _ = run(&rt, &mut codes, &mut weights, &mut file);
}
