// Why a call of the system failed, in the system's words.
use crate::{Tell, Told, say};
use std::fmt::InlineText;
use std::io;

// The most bytes of such words, with the number that std puts after them.
const MOST_WORDS: usize = 256;

// What stands between the words and that number.
const NUMBER: &str = " (os error ";

// The words before that number.
fn words_of(told: &str) -> &str {
    match told.split_once(NUMBER) {
        Some((words, _)) => words,
        None => told,
    }
}

// A line: what failed, as the caller names it, a colon and why.
pub fn say_failed(rt: &impl Tell, what: &[u8], error: io::Error) -> Told {
    let told = InlineText::<MOST_WORDS>::of(error);
    say(rt, what);
    say(rt, b": ");
    say(rt, words_of(told.as_str()).as_bytes());
    say(rt, b"\n");
    Told
}
