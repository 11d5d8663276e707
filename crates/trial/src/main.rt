// The trial of the reader, the builder and the sign: reads vectors on standard input (second/src/vectors.rs says what they are), makes the calls, and writes the answers.
#![tactic(auto)]

mod digits; // digits.rt: digits, and numbers made of them
mod filled; // filled.rt: buffers with what is held of them
mod held; // held.rt: what vectors hold
mod requests; // requests.rt: what vectors ask for
mod reading; // reading.rt: vectors, byte by byte
mod sums; // sums.rt: checksums of a buffer
mod answers; // answers.rt: the answers
mod signs; // signs.rt: the vectors of the sign
mod calls; // calls.rt: doing what vectors ask for

ghost use Rattle.std.specs.Prelude.{◌≤◌, length};

use calls::step;
use held::{Held, LONGEST_LIST, MOST_ENDS, MOST_WEIGHTS};
use reading::Vector;
use records::offsets::POSITIONS;
use records::sizes::MOST_CODES;
use sign::PLACE;
use std::io::Read;

// The bytes of a piece.
const PIECE: usize = 65_536;

// The most pieces of standard input that are read. Nothing says that the input ends, so the pieces are counted.
const MOST_PIECES: u32 = 65_536;

// Reads until the piece is full, the input ends or a read fails, and gives back how many bytes the piece then has.
fn read_full(input: &mut impl Read, piece: &mut [u8]) -> usize
    ensures { result ≤ length piece.new }
{
    let mut done = 0;
    // each turn goes on by what the read gave, so that no range or items are gone through
    while done < piece.len() {
        let n = input.read(&mut piece[done..]).unwrap_or(0);
        if n == 0 {
            break;
        }
        done += n;
    }
    done
}

// Goes through standard input, piece by piece.
fn main(rt: HostRuntime) {
    // Twice the most ends, more weights than any arity has, and lists of two places more than the most lines.
    prove!(MOST_ENDS == 2 * MOST_CODES && MOST_WEIGHTS == 4 * POSITIONS);
    prove!(LONGEST_LIST == PLACE * (MOST_CODES + 2));
    let mut piece = [0; PIECE];
    let mut input = rt.reader();
    let mut vector = Vector::default();
    let mut held = Held::default();
    for _ in 0..MOST_PIECES {
        let n = read_full(&mut input, &mut piece);
        if n == 0 {
            return;
        }
        for byte in &piece[..n] {
            step(&rt, &mut vector, &mut held, *byte);
        }
    }
}
