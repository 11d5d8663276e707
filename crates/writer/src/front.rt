// The header, stored.
ghost use Rattle.directory.specs.Kind.{HD};
ghost use Rattle.directory.specs.File.{header_length, header_record};
ghost use Rattle.directory.specs.Whole.{Sized};
ghost use Rattle.storing.specs.Went.{RoomFor, Went};

use crate::numbers::put_two;
use directory::Header;
use storing::Pen;

// The header stands at the start of the file.
#[tactic(auto, unfolding(directory::specs::File::header_record))]
pub fn put_header(out: &mut Pen, header: Header)
    requires sizes { Sized header }
    requires room { RoomFor header_length out.old }
    ensures { Went (header_record HD header) out.old out.new }
{
    out.bytes(b"HD");
    put_two(out, header.n as u16);
    out.byte(header.r as u8);
    put_two(out, header.v as u16);
}
