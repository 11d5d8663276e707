// The lists of levels and times, cleared: four bytes a place, the low one first, and one place a line.
// The two lists stay two parameters: `sign::report` takes them so, as C lends them, and a struct of two `&mut` would have to say in each contract that both keep their reference and their length.
ghost use Rattle.std.specs.Prelude.{◌≡◌, ◌≤◌, length};
ghost use Rattle.counting.specs.Lists.{each};
ghost use Rattle.counting.specs.Wrote.{Wrote};
ghost use Rattle.sign.specs.Places.{place_bytes, place_at};
ghost use Rattle.sign.specs.Keeping.{lists, cleared};

use storing::Pen;

// The bytes of 1,024 places.
pub const MOST_BYTES: usize = 4_096;

// Puts the same bytes into the places of n lines.
fn fill(list: &mut [u8], n: usize, place: &[u8])
    requires { (length place.now ≡ place_bytes) × (place_at n ≤ length list.old) }
    ensures { Wrote 0 (each n (λ i. place.now)) list.old list.new (place_at n) }
{
    let mut out = Pen {
        buffer: list,
        at: 0,
    };
    for _ in 0..n {
        out.bytes(place);
    }
}

// Clears the lists of n lines: 30,000 as every level, so that none counts as heard, and 0 as every time.
pub fn clear(n: usize, levels: &mut [u8], times: &mut [u8])
    requires { (length levels.old ≡ place_at n) × (length times.old ≡ place_at n) }
    ensures { lists levels.new times.new ≡ cleared n }
{
    fill(levels, n, b"\x30\x75\x00\x00");
    fill(times, n, b"\x00\x00\x00\x00");
}
