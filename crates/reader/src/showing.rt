// Showing the code of a line, as a part of the file.
ghost use Rattle.std.specs.Prelude.{◌≡◌};
ghost use Rattle.directory.specs.Kind.{HD};
ghost use Rattle.directory.specs.Showing.{IsPart, key_part};
ghost use Rattle.directory.specs.Calls.{show_part_of};

use crate::framing::framed;
use crate::sizes::wrong_length;
use directory::Part;
use records::codes::key_length;
use records::offsets::code_at;
use records::standing::Directory;

// The code of a line of a file whose header and length are right; the empty part where there is none.
fn key_part(directory: Directory, line: usize) -> Part
    ensures { let d = directory.entry in result ≡ key_part HD d.header d.file.now line }
{
    if directory.header.n <= line {
        return Part::EMPTY;
    }
    let size = key_length(directory.key(line));
    if wrong_length(size) {
        return Part::EMPTY;
    }
    let start = code_at(directory.header, line);
    Part { start, size }
}

// Where the code of a line stands in the file. The empty part where the header or the length is wrong, the line is n or more, or the stored length is 0 or over 32.
pub fn part(file: &[u8], line: usize) -> Part
    ensures { result ≡ show_part_of file.now line }
{
    match framed(file) {
        Ok(directory) => key_part(directory, line),
        Err(_) => Part::EMPTY,
    }
}

// The code of a line: that part of the file itself.
pub fn show(file: &[u8], line: usize) -> &[u8]
    ensures { IsPart result file.entry (show_part_of file.now line) }
{
    let Part { start, size } = part(file, line);
    &file[start..start + size]
}
