// The lines of a text.
ghost use Rattle.std.specs.Prelude.{◌≡◌, drop};
ghost use Rattle.texts.specs.Parts.{before, since};
ghost use Rattle.texts.specs.Lines.{is_newline, without_return, from_line, line as line_of};

use crate::finding::{is_newline, since, until};

// A line without the carriage return just before its end.
#[tactic(auto, using(crate::proofs::LineSteps::return_stripped))]
fn without_return(line: &[u8]) -> &[u8]
    ensures { result.now ≡ without_return line.now }
{
    line.strip_suffix(b"\r").unwrap_or(line)
}

// The line that a text begins with.
pub fn first_line(text: &[u8]) -> &[u8]
    ensures { result.now ≡ without_return (before is_newline text.now) }
{
    without_return(until(text, is_newline))
}

// What follows the newline of that line, and nothing where it has none.
pub fn after_line(text: &[u8]) -> &[u8]
    ensures { result.now ≡ drop 1 (since is_newline text.now) }
{
    let ended = since(text, is_newline);
    ended.get(1..).unwrap_or(ended)
}

// The text from line k on.
#[tactic(auto, using(crate::proofs::LineSteps::line_first, crate::proofs::LineSteps::line_next))]
fn from_line(text: &[u8], k: usize) -> &[u8]
    ensures { result.now ≡ from_line text.now k }
{
    let mut rest = text;
    for _i in 0..k {
        rest = after_line(rest);
    }
    rest
}

// Line k, as a part of the text.
#[tactic(auto, using(crate::proofs::LineSteps::line_here))]
pub fn line(text: &[u8], k: usize) -> &[u8]
    ensures { result.now ≡ line_of text.now k }
{
    first_line(from_line(text, k))
}
