// A whole row.
ghost use Rattle.std.specs.Prelude.{◌+◌, ◌≤◌, length};
ghost use Rattle.directory.specs.Kind.{HD};
ghost use Rattle.storing.specs.Went.{RoomFor, Went};
ghost use Rattle.rows.specs.Values.{longest_column};
ghost use Rattle.rows.specs.Rows.{columns, seen_text, row_text, longest_row};

use crate::answers::{put_word, seen};
use crate::codes::put_code_column;
use crate::values::put_column;
use crate::{Seen, Value};
use directory::Refused;
use sign::{Answer, Reading};
use storing::Pen;

// The widths of the two columns.
const LEVELS: usize = 9;

const AGES: usize = 13;

fn put_columns(out: &mut Pen, level: Option<Value>, age: Option<Value>)
    requires { RoomFor (longest_column + longest_column) out.old }
    ensures written { Went (columns level age) out.old out.new }
    ensures fits { out.new.at ≤ out.old.at + longest_column + longest_column }
{
    put_column(out, LEVELS, level);
    put_column(out, AGES, age);
}

#[tactic(auto, unfolding(crate::specs::Rows::seen_text))]
fn put_seen(out: &mut Pen, seen: Option<Seen>)
    requires { RoomFor (longest_column + longest_column) out.old }
    ensures written { Went (seen_text seen) out.old out.new }
    ensures fits { out.new.at ≤ out.old.at + longest_column + longest_column }
{
    let level = seen.map(|seen| Value::Level(seen.level));
    let age = seen.map(|seen| Value::Age(seen.age));
    put_columns(out, level, age);
}

// The row of a code: its line's last reading, what asking at a moment answers, and that moment.
pub(crate) fn put_row(
    out: &mut Pen,
    code: &[u8],
    last: Option<Reading>,
    answer: Result<Option<Answer>, Refused>,
    moment: u32,
)
    requires { (length code.now ≤ HD.positions) × RoomFor longest_row out.old }
    ensures written { Went (row_text code.now last answer moment) out.old out.new }
    ensures fits { out.new.at ≤ out.old.at + longest_row }
{
    put_code_column(out, code);
    put_seen(out, seen(last, answer, moment));
    out.bytes(b"  ");
    put_word(out, answer);
    out.byte(b'\n');
}
