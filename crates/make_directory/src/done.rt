// The file, written, and what is said of it on standard output.
use crate::arguments::FILE;
use beginnings::first;
use directory::Header;
use files::write_argument;
use records::offsets::{BLOCK, HEADER, MARK, MOST_PARTS, NUMBER, PER_BYTE, POSITIONS};
use records::sizes::{MOST_CODES, MOST_VERTICES};
use std::io;
use std::rt::{Env, Files};
use telling::{LONGEST_ARGUMENT, Tell, Told, argument, say_failed};

// The longest directory.
pub const LONGEST_DIRECTORY: usize = 37_197;

// Its records: HD; WT; GV; RK; and a KY for each of the most codes, with a length and the bytes of a code.
pub const LONGEST_RECORDS: usize = HEADER
    + (MARK + NUMBER * POSITIONS * MOST_PARTS)
    + (MARK + MOST_VERTICES / PER_BYTE)
    + (MARK + NUMBER * (MOST_VERTICES / BLOCK))
    + (MARK + 1 + POSITIONS) * MOST_CODES;

// The name of the file, how many codes it has and how many bytes.
fn print_done(rt: &(impl Env + Print), n: usize, length: usize) -> io::Result<()> {
    let mut buffer = [0u8; LONGEST_ARGUMENT];
    rt.write_all(argument(rt, FILE, &mut buffer))?;
    let codes = if n == 1 { "code" } else { "codes" };
    println!(rt; ": {n} {codes}, {length} bytes")
}

// Writes the directory that stands at the start of a buffer, with the sizes of its header.
pub fn write_file(
    rt: &(impl Env + Files + Print + Tell),
    header: Header,
    buffer: &[u8],
) -> Result<(), Told> {
    let Header { n, r, v } = header;
    let length = reader::length(n, r, v);
    write_argument(rt, FILE, first(buffer, length))?;
    print_done(rt, n, length).map_err(|error| say_failed(rt, b"standard output", error))
}
