// The opened directory as one thing that refers to the file's bytes: the file's slice with its n, r and v. Looking up and showing take it apart and look at the bytes themselves, whatever its numbers say.
#![tactic(auto)]

ghost use Rattle.std.specs.Prelude.{◌≡◌};
ghost use Rattle.directory.specs.Showing.{IsPart};
ghost use Rattle.directory.specs.Answers.{found_numbers};
ghost use Rattle.directory.specs.Calls.{lookup_of, lookup_numbers_of, show_part_of};
ghost use Rattle.opened.specs.Held.{numbers_of, held};

use directory::{Header, Refused};
use reader::{lookup, open, show};

// The file's slice with its numbers.
#[derive(Clone, Copy)]
pub struct Opened<'a> {
    pub file: &'a [u8],
    pub header: Header,
}

// n, r and v of a file that opens, and all 0 of any other bytes: no directory has the arity 0, so r tells which.
// Not an Option: opened.OneThing.r_is_0_exactly_if_it_does_not_open and the edit arity_1_where_refused hold the 0.
#[tactic(auto, unfolding(crate::specs::Held::numbers_of))]
pub fn numbers(file: &[u8]) -> Header
    ensures { result ≡ numbers_of file.now }
{
    open(file).unwrap_or_default()
}

// Opens a file and holds its slice, the one that was lent, with its numbers.
pub fn hold<'a>(file: &'a [u8]) -> Opened<'a>
    ensures { result ≡ held file.entry }
{
    let header = numbers(file);
    Opened { file, header }
}

// The line of a code in the held file: what lookup gives.
pub fn find<'a, 'b>(d: Opened<'a>, code: &'b [u8]) -> Result<Option<usize>, Refused>
    ensures given { result ≡ lookup_of d.entry.file.now code.now }
    ensures paper { found_numbers result ≡ lookup_numbers_of d.entry.file.now code.now }
{
    lookup(d.file, code)
}

// The code of a line of the held file, as a part of the file itself: what show gives.
pub fn shown<'a>(d: Opened<'a>, line: usize) -> &'a [u8]
    ensures { IsPart result d.entry.file (show_part_of d.entry.file.now line) }
{
    show(d.file, line)
}

// Holds a file and finds a code in it, for callers that cannot name the struct.
pub fn find_in(file: &[u8], code: &[u8]) -> Result<Option<usize>, Refused>
    ensures given { result ≡ lookup_of file.now code.now }
    ensures paper { found_numbers result ≡ lookup_numbers_of file.now code.now }
{
    find(hold(file), code)
}
