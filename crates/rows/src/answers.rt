// What an answer lets a row show, and the word that a row ends with.
ghost use Rattle.std.specs.Prelude.{◌≡◌, ◌+◌, ◌≤◌, length};
ghost use Rattle.storing.specs.Went.{RoomFor, Went};
ghost use Rattle.rows.specs.Rows.{tells as tellsOf, seen_of, refused_text, word_text, longest_word};

use crate::Seen;
use directory::Refused;
use listing::put_decimal;
use sign::{Answer, Reading};
use storing::Pen;

// Whether an answer says that there is a level to show.
fn tells(answer: Result<Option<Answer>, Refused>) -> bool
    ensures { result ≡ tellsOf answer }
{
    matches!(answer, Ok(Some(Answer::Fresh(_) | Answer::Stale(_, _))))
}

// What is seen of a line at a moment: its last reading, where an answer tells of one.
#[tactic(auto, using(std::proofs::lemmas::Bool::Decides::nat_tests), unfolding(crate::specs::Rows::seen_of))]
pub(crate) fn seen(
    last: Option<Reading>,
    answer: Result<Option<Answer>, Refused>,
    moment: u32,
) -> Option<Seen>
    ensures { result ≡ seen_of last answer moment }
{
    let Reading { level, time } = last?;
    if !tells(answer) {
        return None;
    }
    let age = moment.checked_sub(time)?;
    Some(Seen { level, age })
}

#[tactic(auto, using(crate::proofs::RowLaws::refused_length), unfolding(crate::specs::Rows::refused_text))]
fn put_refused(out: &mut Pen, number: usize)
    requires { RoomFor (length (refused_text number)) out.old }
    ensures { Went (refused_text number) out.old out.new }
{
    out.bytes(b"refused ");
    put_decimal(out, number);
}

#[tactic(auto, unfolding(crate::specs::Rows::word_text))]
pub(crate) fn put_word(out: &mut Pen, answer: Result<Option<Answer>, Refused>)
    requires { RoomFor longest_word out.old }
    ensures written { Went (word_text answer) out.old out.new }
    ensures fits { out.new.at ≤ out.old.at + longest_word }
{
    match answer {
        Ok(Some(Answer::Never)) => out.bytes(b"never"),
        Ok(Some(Answer::Fresh(_))) => out.bytes(b"fresh"),
        Ok(Some(Answer::Stale(_, _))) => out.bytes(b"stale"),
        Ok(None) => out.bytes(b"unknown"),
        Err(why) => put_refused(out, why.reason.number() as usize),
    }
}
