// The values of the vertices, packed four to a byte and stored.
ghost use Rattle.std.specs.Prelude.{◌≡◌, ◌+◌, ◌*◌, ◌/◌, ◌<◌, ◌≤◌, length, get_or};
ghost use Rattle.directory.specs.Sizes.{most_vertices};
ghost use Rattle.directory.specs.Values.{spare_zero};
ghost use Rattle.storing.specs.Went.{RoomFor, Went};
ghost use Rattle.writer.specs.Ready.{Small};
ghost use Rattle.writer.specs.Stored.{byte_of, fours};

use records::offsets::PER_BYTE;
use storing::Pen;

// Two bits hold a value, and the first value of a byte has the lowest: so many bits stand below the second, third and fourth.
const SECOND: u8 = 2;

const THIRD: u8 = 4;

const FOURTH: u8 = 6;

// The values of all vertices, one to a byte: two bits hold each.
#[derive(Clone, Copy)]
pub struct Values<'a> {
    pub values: &'a [u8],
    pub ghost small: { Small values.now },
}

// Four values in a byte, the first in the lowest bits.
fn pack(a: u8, b: u8, c: u8, d: u8) -> u8
    requires { (a ≤ 3) × (b ≤ 3) × (c ≤ 3) × (d ≤ 3) }
    ensures { result ≡ a + 4 * b + 16 * c + 64 * d }
{
    a | (b << SECOND) | (c << THIRD) | (d << FOURTH)
}

impl Values<'_> {
    // The value of vertex x, and zero for the spare bits past the last vertex.
    fn value_or_zero(self, x: usize) -> u8
        ensures { (result ≡ spare_zero (length self.entry.values.now) (λ x. get_or self.entry.values.now x 0) x) × (result ≤ 3) }
    {
        self.values.get(x).copied().unwrap_or(0)
    }

    // Byte b of the values, which may have spare bits.
    fn packed(self, b: usize) -> u8
        requires { b < most_vertices }
        ensures { result ≡ byte_of self.entry.values.now b }
    {
        let x = PER_BYTE * b;
        let first = self.value_or_zero(x);
        let second = self.value_or_zero(x + 1);
        let third = self.value_or_zero(x + 2);
        let fourth = self.value_or_zero(x + 3);
        pack(first, second, third, fourth)
    }

    // All values, four to a byte.
    pub fn put_packed(self, out: &mut Pen)
        requires few { length self.values.now ≤ most_vertices }
        requires room { RoomFor ((length self.values.now + 3) / 4) out.old }
        ensures { Went (fours self.entry.values.now) out.old out.new }
    {
        let (fours, rest) = self.values.as_chunks::<PER_BYTE>();
        for [a, b, c, d] in fours {
            out.byte(pack(*a, *b, *c, *d));
        }
        if !rest.is_empty() {
            out.byte(self.packed(fours.len()));
        }
    }
}
