// What a program is given by its arguments: numbers, and texts out of files. What is wrong with them is said on standard error.
#![tactic(auto)]

use files::read_argument;
use std::rt::{Env, Files};
use telling::{LONGEST_ARGUMENT, Tell, Told, argument, say, say_argument, say_bytes, say_text};
use texts::read_number;

// Says that a word is no number from 0 to the largest that is allowed.
fn say_no_number(rt: &impl Tell, name: &[u8], word: &[u8], most: u32) -> Told {
    say(rt, name);
    say(rt, b" is ");
    say_bytes(rt, word);
    say_text(rt, format_args!("; it must be a number from 0 to {most}\n"));
    Told
}

// The number that argument i is, from 0 to the largest that is allowed.
pub fn number_argument(
    rt: &(impl Env + Tell),
    i: usize,
    name: &[u8],
    most: u32,
) -> Result<u32, Told> {
    let mut buffer = [0u8; LONGEST_ARGUMENT];
    let word = argument(rt, i, &mut buffer);
    read_number(word, most).ok_or_else(|| say_no_number(rt, name, word, most))
}

// Reads the text that argument i names, if it is no longer than the longest. The buffer has more room than that.
pub fn text_argument<'a>(
    rt: &(impl Env + Files + Tell),
    i: usize,
    buffer: &'a mut [u8],
    longest: usize,
) -> Result<&'a [u8], Told> {
    let text = read_argument(rt, i, buffer)?;
    if longest < text.len() {
        say_argument(rt, i);
        say_text(rt, format_args!(" is longer than {longest} bytes\n"));
        return Err(Told);
    }
    Ok(text)
}
