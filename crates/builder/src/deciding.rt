// What the codes and their graph decide: the refusals 7 and 8, or the file.
ghost use Rattle.std.specs.Prelude.{◌≡◌};
ghost use Rattle.directory.specs.Kind.{HD};
ghost use Rattle.directory.specs.Lending.{WithinLimits};
ghost use Rattle.builder.specs.Decisions.{of_graph, after_graph, with_file};
ghost use Rattle.builder.specs.Graphs.{lent_of, checked_with, Settled};

use crate::arranging::arrange_codes;
use crate::lending::Lent;
use directory::{Reason, Refused};
use lists::edges::{Checked, Naming};
use lists::ends::Codes;
use records::offsets::BLOCK;
use records::sizes::{MOST_CODES, MOST_VERTICES};
use writer::values::Values;
use writer::{Assignment, put_file};

// A rank entry for each block of vertices.
const MOST_BLOCKS: usize = 64;

// Writes the file of a list of which no code is left over. From here on the three arrays are only read: one `Assignment`.
fn write<'a>(
    checked: Checked,
    values: &'a [u8],
    rank: &'a [u16],
    keys: &'a [u16],
    buffer: &mut [u8],
)
    requires { Settled (checked_with checked buffer.old) values.now rank.now keys.now }
    ensures { buffer.new ≡ with_file (checked_with checked.entry buffer.old) }
{
    let m = checked.naming.r * checked.naming.v;
    let assignment = Assignment {
        values: Values {
            values: &values[..m],
        },
        rank: &rank[..m.div_ceil(BLOCK)],
        keys: &keys[..checked.codes.list.len()],
    };
    put_file(checked, assignment, buffer);
}

impl Lent<'_> {
    // The answer to what is within the limits. All is decided before the first byte is written. Equal codes are always left over, so they are looked for only where codes are.
    pub(crate) fn build_within(self, buffer: &mut [u8]) -> Result<usize, Refused>
        requires { WithinLimits HD (lent_of self buffer.old) }
        ensures answer { result ≡ of_graph (lent_of self.entry buffer.old) }
        ensures bytes { buffer.new ≡ after_graph (lent_of self.entry buffer.old) }
    {
        let codes = Codes { list: self.list };
        let naming = Naming {
            r: self.r,
            v: self.v,
            weights: self.weights,
        };
        let checked = Checked { codes, naming };
        let mut values = [0u8; MOST_VERTICES];
        let mut rank = [0u16; MOST_BLOCKS];
        let mut keys = [0u16; MOST_CODES];
        let counts = arrange_codes(checked, &mut values, &mut rank, &mut keys);
        if counts.left == 0 {
            write(checked, &values, &rank, &keys, buffer);
            return Ok(counts.most);
        }
        match codes.lowest_repeated() {
            Some(k) => Err(Reason::RepeatedCode.at(k)),
            None => Err(Reason::Cyclic.at(counts.left)),
        }
    }
}
