// Numbers, stored.
ghost use Rattle.std.specs.Prelude.{◌*◌, length};
ghost use Rattle.directory.specs.Bytes.{two};
ghost use Rattle.storing.specs.Went.{RoomFor, Went};
ghost use Rattle.writer.specs.Stored.{twos};

use storing::Pen;

// A number in two bytes, the low one first.
pub fn put_two(out: &mut Pen, x: u16)
    requires { RoomFor 2 out.old }
    ensures { Went (two x) out.old out.new }
{
    out.bytes(&x.to_le_bytes());
}

// Numbers in two bytes each, one after the other.
pub fn put_twos(out: &mut Pen, numbers: &[u16])
    requires { RoomFor (2 * length numbers.now) out.old }
    ensures { Went (twos numbers.now) out.old out.new }
{
    for x in numbers {
        put_two(out, *x);
    }
}
