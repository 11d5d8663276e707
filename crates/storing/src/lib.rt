// Bytes stored one after the other in a buffer that the caller lends.
#![tactic(auto)]

ghost use Rattle.std.specs.Prelude.{[], ◌∷◌, length};
ghost use Rattle.storing.specs.Went.{RoomFor, Went};

// Where the next byte goes, in a buffer that the caller lends.
#[derive(Drop)]
pub struct Pen<'a> {
    pub buffer: &'a mut [u8],
    pub at: usize,
}

impl Pen<'_> {
    // One byte.
    pub fn byte(&mut self, b: u8)
        requires { RoomFor 1 self.old }
        ensures { Went (b ∷ []) self.old self.new }
    {
        self.buffer[self.at] = b;
        self.at += 1;
    }

    // Bytes, one after the other.
    pub fn bytes(&mut self, bytes: &[u8])
        requires { RoomFor (length bytes.now) self.old }
        ensures { Went bytes.now self.old self.new }
    {
        let past = self.at + bytes.len();
        self.buffer[self.at..past].copy_from_slice(bytes);
        self.at = past;
    }
}
