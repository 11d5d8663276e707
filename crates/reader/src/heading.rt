// The header of a file: what every call on a file looks at first.
ghost use Rattle.std.specs.Prelude.{◌≡◌};
ghost use Rattle.directory.specs.Answers.{opening_numbers};
ghost use Rattle.directory.specs.Calls.{header_of, header_numbers_of};

use crate::sizes::allowed;
use directory::{Header, Reason, Refused};
use records::numbers::{HD, byte, marked, two};
use records::offsets::{HEADER, key_at};

// Where the numbers stand in the header.
const CODES_AT: usize = 2;

const ARITY_AT: usize = 4;

const PART_SIZE_AT: usize = 5;

// n, r and v, or the first of the refusals 9, 10, 11 and 9.
pub fn header(file: &[u8]) -> Result<Header, Refused>
    ensures given { result ≡ header_of file.now }
    ensures paper { opening_numbers result ≡ header_numbers_of file.now }
{
    if file.len() < HEADER {
        return Err(Reason::WrongSize.at(0));
    }
    if !marked(file, 0, HD) {
        return Err(Reason::WrongMark.at(0));
    }
    let header = Header {
        n: two(file, CODES_AT),
        r: byte(file, ARITY_AT),
        v: two(file, PART_SIZE_AT),
    };
    if !allowed(header) {
        return Err(Reason::WrongHeader.at(0));
    }
    if file.len() != key_at(header, header.n) {
        return Err(Reason::WrongSize.at(0));
    }
    Ok(header)
}
