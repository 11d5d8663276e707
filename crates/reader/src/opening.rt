// Opening: all checks of a file, in their order.
ghost use Rattle.std.specs.Prelude.{◌≡◌};
ghost use Rattle.directory.specs.Kind.{HD};
ghost use Rattle.directory.specs.Refusals.{ok_unless};
ghost use Rattle.directory.specs.Opening.{record_refusals};
ghost use Rattle.directory.specs.Answers.{opening_numbers};
ghost use Rattle.directory.specs.Calls.{open_of, open_numbers_of};

use crate::framing::framed;
use checks::keys::keys;
use checks::marks::marks;
use checks::table::table;
use directory::{Header, Refused};
use records::standing::Directory;

// The records after the header: their marks, then the values and rank entries, then the KY records.
fn open_records(directory: Directory) -> Result<Header, Refused>
    ensures { let d = directory.entry in result ≡ ok_unless d.header (record_refusals HD d.header d.file.now) }
{
    marks(directory)?;
    table(directory)?;
    keys(directory)?;
    Ok(directory.header)
}

// n, r and v, or the first refusal of 9 to 15 that applies.
pub fn open(file: &[u8]) -> Result<Header, Refused>
    ensures given { result ≡ open_of file.now }
    ensures paper { opening_numbers result ≡ open_numbers_of file.now }
{
    open_records(framed(file)?)
}
