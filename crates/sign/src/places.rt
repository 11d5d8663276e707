// Numbers in the places of a list: four bytes each, the low one first.
ghost use Rattle.std.specs.Prelude.{◌≡◌, ◌+◌, ◌≤◌, cond, length};
ghost use Rattle.sign.specs.Places.{place_bytes, place_at, number_at, with_number};
ghost use Rattle.sign.specs.Keeping.{has_place};

// The bytes of a place.
pub const PLACE: usize = 4;

// The number at a line's place, where the list has it.
pub(crate) fn number_at(list: &[u8], line: usize) -> Option<u32>
    ensures { result ≡ cond (has_place line (length list.now)) (Some (number_at list.now line)) None }
{
    let (places, _) = list.as_chunks::<PLACE>();
    let place = places.get(line)?;
    Some(u32::from_le_bytes(*place))
}

// Puts a number at a line's place.
#[tactic(auto, using(crate::proofs::PlaceLaws::number_put))]
pub(crate) fn put_number(list: &mut [u8], line: usize, x: u32)
    requires { place_at line + place_bytes ≤ length list.old }
    ensures { list.new ≡ with_number list.old line x }
{
    let at = PLACE * line;
    let bytes = x.to_le_bytes();
    list[at..at + PLACE].copy_from_slice(&bytes);
}
