// The vectors of the sign: clearing its two lists, and calls with the lists as they are.
use crate::answers::{Asked, Line, Told, say};
use crate::held::Held;
use crate::reading::Vector;
use crate::sums::Sums;

// Bytes of a place of a list.
const PLACE_BYTES: usize = 4;

// A place of a cleared list of levels holds 30,000, which is 117 * 256 + 48.
const CLEARED: [u8; PLACE_BYTES] = [48, 117, 0, 0];

// Makes both lists cleared ones with so many places, if they may have them.
pub fn clear_lists(held: &mut Held, places: usize) -> Option<()> {
    let bytes = places.saturating_mul(PLACE_BYTES);
    held.levels.resize(bytes)?;
    held.times.resize(bytes)?;
    for level in held.levels.held_mut().chunks_exact_mut(PLACE_BYTES) {
        level.copy_from_slice(&CLEARED);
    }
    held.times.held_mut().fill(0);
    Some(())
}

// The level of a size, with a minus before it or not, if it has 32 bits.
fn level_of(size: usize, minus: bool) -> Option<i32> {
    let size = i64::try_from(size).ok()?;
    i32::try_from(if minus { -size } else { size }).ok()
}

// A report, with all of the lists, if its numbers have 32 bits.
pub fn report(rt: &impl Print, vector: &Vector, held: &mut Held) -> Option<()> {
    let level = level_of(vector.second, vector.minus)?;
    let time = u32::try_from(vector.last).ok()?;
    let reported = sign::report(
        held.file.held(),
        held.code.held(),
        level,
        time,
        held.levels.held_mut(),
        held.times.held_mut(),
    );
    let levels = Sums::of(held.levels.held());
    let times = Sums::of(held.times.held());
    let told = Told(reported.map(|line| Line("accepted", line)));
    say(rt, format_args!("{told} {levels} {times}"));
    Some(())
}

// A question about the lists, if its numbers have 32 bits.
pub fn ask(rt: &impl Print, vector: &Vector, held: &Held) -> Option<()> {
    let answer = sign::ask(
        held.file.held(),
        held.code.held(),
        u32::try_from(vector.second).ok()?,
        u32::try_from(vector.last).ok()?,
        held.levels.held(),
        held.times.held(),
    );
    say(rt, Told(answer.map(Asked)));
    Some(())
}
