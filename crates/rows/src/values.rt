// The columns of levels and of ages.
ghost use Rattle.std.specs.Prelude.{◌≡◌, ◌∷◌, ◌+◌, ◌<◌, ◌≤◌, length};
ghost use Rattle.storing.specs.Went.{RoomFor, Went};
ghost use Rattle.rows.specs.Values.{colon, two_digits, metres, level_text, age_text, value_text, column, longest_value, longest_column, widest};

use crate::digits::{put_three, put_two};
use crate::filling::put_filled;
use crate::{Side, Value};
use beginnings::first;
use listing::put_decimal;
use storing::Pen;

// Millimetres in a metre.
const METRE: usize = 1_000;

// Seconds in a minute, as minutes in an hour, and seconds in an hour.
const MINUTE: usize = 60;

const HOUR: usize = 3_600;

// The longest value: `-2147483.648 m`.
const LONGEST_VALUE: usize = 14;

// Millimetres as metres with three decimals.
#[tactic(auto, using(crate::proofs::ValueLaws::lengths))]
fn put_metres(out: &mut Pen, x: usize)
    requires { RoomFor (length (metres x)) out.old }
    ensures { Went (metres x) out.old out.new }
{
    put_decimal(out, x / METRE);
    out.byte(b'.');
    put_three(out, x % METRE);
    out.bytes(b" m");
}

fn put_level(out: &mut Pen, level: i32)
    requires { RoomFor (length (level_text level)) out.old }
    ensures { Went (level_text level) out.old out.new }
{
    let size = level.unsigned_abs() as usize;
    if level < 0 {
        out.byte(b'-');
        put_metres(out, size);
    } else {
        put_metres(out, size);
    }
}

// A colon and two digits.
fn put_part(out: &mut Pen, x: usize)
    requires { (x < 100) × RoomFor 3 out.old }
    ensures { Went (colon ∷ two_digits x) out.old out.new }
{
    out.byte(b':');
    put_two(out, x);
}

// Seconds as hours, minutes and seconds.
#[tactic(auto, using(crate::proofs::ValueLaws::lengths))]
fn put_age(out: &mut Pen, age: usize)
    requires { RoomFor (length (age_text age)) out.old }
    ensures { Went (age_text age) out.old out.new }
{
    put_decimal(out, age / HOUR);
    put_part(out, age / MINUTE % MINUTE);
    put_part(out, age % MINUTE);
}

// A value, or `-` where there is none.
#[tactic(auto, using(crate::proofs::ValueLaws::values), unfolding(crate::specs::Values::value_text))]
fn put_value(out: &mut Pen, value: Option<Value>)
    requires { RoomFor longest_value out.old }
    ensures written { Went (value_text value) out.old out.new }
    ensures fits { length (value_text value) ≤ longest_value }
{
    match value {
        None => out.byte(b'-'),
        Some(Value::Level(level)) => put_level(out, level),
        Some(Value::Age(age)) => put_age(out, age as usize),
    }
}

// Two blanks, and a value filled on the left.
pub(crate) fn put_column(out: &mut Pen, width: usize, value: Option<Value>)
    requires { (width ≤ widest) × RoomFor longest_column out.old }
    ensures written { Went (column width value) out.old out.new }
    ensures fits { out.new.at ≤ out.old.at + longest_column }
{
    let mut field = [0u8; LONGEST_VALUE];
    let mut shown = Pen {
        buffer: &mut field,
        at: 0,
    };
    put_value(&mut shown, value);
    let size = shown.at;
    let text = &*shown.buffer;
    out.bytes(b"  ");
    put_filled(out, Side::Left, width, first(text, size));
}
