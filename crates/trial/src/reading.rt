// Reading vectors byte by byte: the letter, the numbers, and the bytes and numbers that are put where they belong.
use crate::digits::{byte_of, decimal, hex, with_digit};
use crate::filled::Filled;
use crate::held::Held;
use crate::requests::Request;

// More blanks than any vector has.
const MOST_BLANKS: usize = 65_536;

// What is read of a vector; by default nothing.
#[derive(Clone, Copy, Default)]
pub struct Vector {
    request: Option<Request>,
    // The blanks, each before a field.
    pub blanks: usize,
    // The numbers: the last is being read, and a blank moves each to the one before it.
    pub first: usize,
    pub second: usize,
    pub last: usize,
    // The first digit of a byte whose second is not read yet.
    high: Option<u8>,
    // The bytes of a code or a run so far.
    pub count: usize,
    // Whether a level has a minus before it.
    pub minus: bool,
    // Whether something was read that no vector has.
    bad: bool,
}

// What reads a part of a vector answers None where no vector has it.
impl Vector {
    // What the vector asks for, if it was read as it has to be.
    pub fn request(&self) -> Option<Request> {
        let whole = !self.bad && self.high.is_none();
        self.request
            .filter(|request| whole && request.takes(self.blanks))
    }

    // A byte of the vector, any but the newline.
    pub fn read(&mut self, byte: u8, held: &mut Held) {
        if self.byte(byte, held).is_none() {
            self.bad = true;
        }
    }

    fn byte(&mut self, byte: u8, held: &mut Held) -> Option<()> {
        match (self.request, byte) {
            (None, _) => self.request = Request::try_from(byte).ok(),
            (Some(Request::Comment), _) => (),
            (Some(_), b' ') => self.blank()?,
            (Some(request), _) => self.field(request, byte, held)?,
        }
        Some(())
    }

    // A blank begins the next field.
    fn blank(&mut self) -> Option<()> {
        if MOST_BLANKS <= self.blanks {
            return None;
        }
        self.blanks += 1;
        self.first = self.second;
        self.second = self.last;
        self.last = 0;
        Some(())
    }

    // A byte of a field.
    fn field(&mut self, request: Request, byte: u8, held: &mut Held) -> Option<()> {
        if request.holds_bytes(self.blanks) {
            self.hex_digit(request, hex(byte)?, held)
        } else if let Some(digit) = decimal(byte) {
            self.decimal_digit(request, digit, held)
        } else {
            self.minus(request, byte)
        }
    }

    // A hex digit: the second of a byte puts it where it belongs.
    fn hex_digit(&mut self, request: Request, digit: u8, held: &mut Held) -> Option<()> {
        let Some(high) = self.high.take() else {
            self.high = Some(digit);
            return Some(());
        };
        let byte = byte_of(high, digit);
        match request {
            Request::Run => self.next_byte(byte, &mut held.run),
            Request::PatchFile => self.byte_at(byte, held.file.held_mut()),
            Request::PatchLevels => self.byte_at(byte, held.levels.held_mut()),
            Request::PatchTimes => self.byte_at(byte, held.times.held_mut()),
            _ => self.next_byte(byte, &mut held.code),
        }
    }

    // A byte of the code that is asked for, or of the run.
    fn next_byte<const N: usize>(&mut self, byte: u8, bytes: &mut Filled<u8, N>) -> Option<()> {
        bytes.put(self.count, byte)?;
        self.count = self.count.saturating_add(1);
        Some(())
    }

    // A byte of the file or of a list, at the place that the number before it names.
    fn byte_at(&mut self, byte: u8, bytes: &mut [u8]) -> Option<()> {
        *bytes.get_mut(self.second)? = byte;
        self.second = self.second.saturating_add(1);
        Some(())
    }

    fn decimal_digit(&mut self, request: Request, digit: u8, held: &mut Held) -> Option<()> {
        self.last = with_digit(self.last, digit);
        match request {
            Request::Ends => self.listed(&mut held.ends),
            Request::Weights => self.listed(&mut held.weights),
            _ => Some(()),
        }
    }

    // A number of the ends or the weights, as far as it is read, at the place that the blanks name.
    fn listed<const N: usize>(&self, numbers: &mut Filled<u16, N>) -> Option<()> {
        let number = u16::try_from(self.last).ok()?;
        numbers.put(self.blanks.checked_sub(1)?, number)
    }

    // A minus before a level.
    fn minus(&mut self, request: Request, byte: u8) -> Option<()> {
        if byte != b'-' || self.minus || !request.holds_level(self.blanks) {
            return None;
        }
        self.minus = true;
        Some(())
    }
}
