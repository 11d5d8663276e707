// Looking a code up in any bytes.
ghost use Rattle.std.specs.Prelude.{◌≡◌};
ghost use Rattle.directory.specs.Kind.{HD};
ghost use Rattle.directory.specs.File.{lead_in};
ghost use Rattle.directory.specs.LookingUp.{found};
ghost use Rattle.directory.specs.Answers.{found_numbers};
ghost use Rattle.directory.specs.Calls.{lookup_of, lookup_numbers_of};

use crate::framing::framed;
use crate::sizes::wrong_length;
use directory::{Lead, Reason, Refused};
use records::codes::holds_code;
use records::lead;
use records::standing::{Code, Directory};

// What is found where a code leads: its line if it stands there.
fn find(directory: Directory, code: Code) -> Result<Option<usize>, Refused>
    ensures { let d = directory.entry in result ≡ let t = code.entry.bytes.now in found HD d.header d.file.now t (lead_in HD d.header d.file.now t) }
{
    match lead(directory.tables(), code) {
        Lead::Nowhere => Ok(None),
        Lead::PastLast(b) => Err(Reason::WrongRank.at(b)),
        Lead::ToLine(l) => {
            if holds_code(directory.key(l), code) {
                Ok(Some(l))
            } else {
                Ok(None)
            }
        }
    }
}

// The line of a code, no line, or the first of the refusals 9, 10, 11, 9, 16, and 13 for a line of n or more.
pub fn lookup(file: &[u8], code: &[u8]) -> Result<Option<usize>, Refused>
    ensures given { result ≡ lookup_of file.now code.now }
    ensures paper { found_numbers result ≡ lookup_numbers_of file.now code.now }
{
    let directory = framed(file)?;
    if wrong_length(code.len()) {
        return Err(Reason::WrongCode.at(0));
    }
    find(directory, Code { bytes: code })
}
