// The file of a built directory, written into a buffer that the caller lends.
#![tactic(auto)]

mod numbers; // numbers.rt: numbers
pub mod values; // values.rt: the values, four to a byte
mod front; // front.rt: the header
mod keys; // keys.rt: the KY records

ghost use Rattle.std.specs.Prelude.{◌≡◌, ◌++◌, length, drop};
ghost use Rattle.directory.specs.Sizes.{headed};
ghost use Rattle.directory.specs.Kind.{HD};
ghost use Rattle.directory.specs.File.{file_length};
ghost use Rattle.writer.specs.Ready.{file_in, Ready};

use crate::front::put_header;
use crate::keys::put_keys;
use crate::numbers::put_twos;
use crate::values::Values;
use directory::Header;
use lists::edges::Checked;
use storing::Pen;

// What was computed of the graph: the values, the rank entries, and the codes in the order of their lines.
#[derive(Clone, Copy)]
pub struct Assignment<'a> {
    pub values: Values<'a>,
    pub rank: &'a [u16],
    pub keys: &'a [u16],
}

// The file, written at the start of the buffer.
pub fn put_file(checked: Checked, assignment: Assignment, buffer: &mut [u8])
    requires { Ready checked.naming.r checked.naming.v assignment.values.values.now assignment.rank.now checked.codes.list.ends.now assignment.keys.now buffer.old }
    ensures { buffer.new ≡ file_in checked.entry.naming.r checked.entry.naming.v checked.entry.naming.weights.now assignment.entry.values.values.now checked.entry.codes.list.run.now checked.entry.codes.list.ends.now assignment.entry.keys.now ++ drop (file_length HD (headed (length checked.entry.codes.list.ends.now) checked.entry.naming.r checked.entry.naming.v)) buffer.old }
{
    let Checked { codes, naming } = checked;
    let header = Header {
        n: codes.list.len(),
        r: naming.r,
        v: naming.v,
    };
    let mut out = Pen { buffer, at: 0 };
    put_header(&mut out, header);
    out.bytes(b"WT");
    put_twos(&mut out, naming.weights);
    out.bytes(b"GV");
    assignment.values.put_packed(&mut out);
    out.bytes(b"RK");
    put_twos(&mut out, assignment.rank);
    put_keys(&mut out, codes, assignment.keys);
}
