// A directory out of two texts: the codes and the weights are read, and their directory is built.
#![tactic(auto)]

ghost use Rattle.std.specs.Prelude.{◌≡◌};
ghost use Rattle.making.specs.Making.{made_of, made_buffer};
ghost use Rattle.making.specs.declared.NotMade.TheVariants as not_made;

use beginnings::first;
use builder::build;
use directory::Refused;
use texts::{MOST_KEPT, MOST_LINES, MOST_WORDS, WrongLine, WrongWord, read_codes, read_weights};

// Why nothing is made: a line that holds no code, a word that is no weight, or the refusal of building.
#[derive(Clone, Copy)]
pub enum NotMade {
    Line(WrongLine),
    Word(WrongWord),
    Refused(Refused),
}

impl From<WrongLine> for NotMade {
    ghost from_gives = { λ wrong why. why ≡ not_made.Line wrong };

    fn from(wrong: WrongLine) -> NotMade {
        NotMade::Line(wrong)
    }
}

impl From<WrongWord> for NotMade {
    ghost from_gives = { λ wrong why. why ≡ not_made.Word wrong };

    fn from(wrong: WrongWord) -> NotMade {
        NotMade::Word(wrong)
    }
}

impl From<Refused> for NotMade {
    ghost from_gives = { λ refused why. why ≡ not_made.Refused refused };

    fn from(refused: Refused) -> NotMade {
        NotMade::Refused(refused)
    }
}

// The most lines that are read, with the most bytes that are kept of each.
const MOST_RUN: usize = MOST_KEPT * MOST_LINES;

// Makes the directory of the codes and weights of two texts, and says how many codes it has. On success it stands at the start of the buffer and the bytes after it are unchanged; otherwise no byte of the buffer changes.
pub fn make(
    codes: &[u8],
    weights: &[u8],
    r: usize,
    v: usize,
    buffer: &mut [u8],
) -> Result<usize, NotMade>
    ensures answer { result ≡ made_of codes.now weights.now r v buffer.old }
    ensures bytes { buffer.new ≡ made_buffer codes.now weights.now r v buffer.old }
{
    let mut run = [0u8; MOST_RUN];
    let mut ends = [0u16; MOST_LINES];
    let mut numbers = [0u16; MOST_WORDS];
    let read = read_codes(codes, &mut run, &mut ends)?;
    let count = read_weights(weights, &mut numbers)?;
    let run = first(&run, read.size);
    let ends = first(&ends, read.count);
    let numbers = first(&numbers, count);
    build(run, ends, r, v, numbers, buffer)?;
    Ok(read.count)
}
