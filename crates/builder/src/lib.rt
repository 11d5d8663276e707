// Building a directory: the refusals in their order, the graph of the codes, and, once all is decided, the file at the start of the lent buffer.
#![tactic(auto)]

mod lending; // lending.rt: what is lent, the refusals 1 to 6
mod arranging; // arranging.rt: the graph of the codes: the number left, the values, the rank entries, the lines
mod deciding; // deciding.rt: the refusals 7 and 8, or the file

ghost use Rattle.std.specs.Prelude.{◌≡◌};
ghost use Rattle.directory.specs.Building.{lent};
ghost use Rattle.directory.specs.Answers.{built_numbers};
ghost use Rattle.directory.specs.Calls.{build_of, buffer_after_of, build_numbers_of};

use crate::lending::Lent;
use directory::Refused;
use lists::ends::CodeList;

// Builds the directory of a code list. On success the file stands at the start of the buffer, the bytes after it are unchanged, and the answer has the most codes that waited at once; on refusal no byte changes.
// The parameters stay six, as README names the call and C passes them; inside they are one value.
pub fn build(
    run: &[u8],
    ends: &[u16],
    r: usize,
    v: usize,
    weights: &[u16],
    buffer: &mut [u8],
) -> Result<usize, Refused>
    ensures answer { result ≡ build_of (lent run.now ends.now r v weights.now buffer.old) }
    ensures bytes { buffer.new ≡ buffer_after_of (lent run.now ends.now r v weights.now buffer.old) }
    ensures paper { built_numbers result ≡ build_numbers_of (lent run.now ends.now r v weights.now buffer.old) }
{
    let lent = Lent {
        list: CodeList { run, ends },
        r,
        v,
        weights,
    };
    lent.check(buffer)?;
    lent.build_within(buffer)
}
