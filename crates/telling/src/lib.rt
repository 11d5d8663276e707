// Words for people, on standard error.
#![tactic(auto)]

mod arguments; // arguments.rt: the program's arguments
mod failures; // failures.rt: why a call of the system failed
mod refusals; // refusals.rt: why something was refused

pub use arguments::{LONGEST_ARGUMENT, argument, argument_count};
use beginnings::first;
pub use failures::say_failed;
pub use refusals::refused;
use std::fmt::{Display, InlineText};
use std::io;
use std::io::Print;
use std::rt::Env;

// The most bytes of a line or a word that are shown.
const MOST_SHOWN: usize = 80;

// The most bytes of a text that is said at once.
const MOST_TEXT: usize = 256;

// Standard error. It takes any bytes, since an argument need not be text.
pub trait Tell {
    fn tell(&self, bytes: &[u8]) -> io::Result<()>;
}

impl Tell for HostRuntime {
    fn tell(&self, bytes: &[u8]) -> io::Result<()> {
        let standard_error = self.stderr();
        standard_error.write_all(bytes)
    }
}

// A failure whose reason was said on standard error.
#[derive(Clone, Copy)]
pub struct Told;

// Where standard error takes nothing, nobody can be told.
pub fn say(rt: &impl Tell, text: &[u8]) {
    let _ = rt.tell(text);
}

// What can be shown as text: a number, or words with numbers in them.
pub fn say_text<D: Display + Drop>(rt: &impl Tell, text: D) {
    let shown = InlineText::<MOST_TEXT>::of(text);
    say(rt, shown.as_str().as_bytes());
}

// Lines and words are counted from 1.
pub fn say_count(rt: &impl Tell, k: usize) {
    say_text(rt, k.saturating_add(1));
}

// The program's argument i.
pub fn say_argument(rt: &(impl Env + Tell), i: usize) {
    let mut buffer = [0u8; LONGEST_ARGUMENT];
    say(rt, argument(rt, i, &mut buffer));
}

// Whether a byte is a character that can be seen, or a space.
fn printable(byte: u8) -> bool {
    matches!(byte, b' '..=b'~')
}

fn say_hex(rt: &impl Tell, bytes: &[u8]) {
    say(rt, b"0x");
    for byte in bytes {
        say_text(rt, format_args!("{byte:02x}"));
    }
}

// Bytes as they stand, or in hex where one of them cannot be printed; two dots where there are more than are shown.
pub fn say_bytes(rt: &impl Tell, bytes: &[u8]) {
    let shown = first(bytes, MOST_SHOWN);
    if shown.iter().all(|byte| printable(*byte)) {
        say(rt, shown);
    } else {
        say_hex(rt, shown);
    }
    if MOST_SHOWN < bytes.len() {
        say(rt, b"..");
    }
}

// The name of a file, which argument i is, the number of a line in it and, if there is any, the line's text.
pub fn say_line(rt: &(impl Env + Tell), i: usize, k: usize, text: &[u8]) {
    say_argument(rt, i);
    say(rt, b", line ");
    say_count(rt, k);
    if !text.is_empty() {
        say(rt, b": ");
        say_bytes(rt, text);
    }
}
