// The name of a file: an argument, as bytes and as the text that std opens files by.
ghost use Rattle.std.specs.Prelude.{◌≤◌, length, IfOk};

use std::env::FillError;
use std::io;
use std::rt::Env;
use telling::{Tell, Told, say_failed};

// The system's numbers of what may be wrong with a name: there is none, it is too long, or it is not UTF-8.
const INVALID: i32 = 22;

const TOO_LONG: i32 = 36;

const NOT_TEXT: i32 = 84;

// The system's number for an argument that cannot be had.
fn number_of(error: FillError) -> i32 {
    match error {
        FillError::NotPresent => INVALID,
        FillError::TooLong => TOO_LONG,
    }
}

// Says what is wrong with a name, by the system's number.
fn say_wrong(rt: &impl Tell, name: &[u8], number: i32) -> Told {
    say_failed(rt, name, io::Error::from_raw_os_error(number))
}

// Puts the name that argument i is at the start of a buffer, and gives its length back.
pub fn name_argument(rt: &(impl Env + Tell), i: usize, name: &mut [u8]) -> Result<usize, Told>
    ensures { IfOk result (λ n. n ≤ length name.new) }
{
    rt.arg(i, name)
        .map_err(|error| say_wrong(rt, b"a file's name", number_of(error)))
}

// A name as text.
pub fn text_of<'a>(rt: &impl Tell, name: &'a [u8]) -> Result<&'a str, Told> {
    str::from_utf8(name).map_err(|_| say_wrong(rt, name, NOT_TEXT))
}
