// Where the lines and words of a text end.
ghost use Rattle.std.specs.Prelude.{◌≡◌, ◌≤◌, Bool, ℕ, length};
ghost use Rattle.texts.specs.Lines.{is_newline};
ghost use Rattle.texts.specs.Parts.{before, since, Computes};
ghost use Rattle.texts.specs.Words.{is_blank};

pub(crate) fn is_newline(b: u8) -> bool
    ensures { result ≡ is_newline b }
{
    b == b'\n'
}

pub(crate) fn is_blank(b: u8) -> bool
    ensures { result ≡ is_blank b }
{
    matches!(b, b'\t' | b'\n' | b'\r' | b' ')
}

// What stands before the first byte that passes a test, and all of the text where none does.
pub(crate) fn until<F: Fn(u8) -> bool>(text: &[u8], passes: F) -> &[u8]
    requires { F.IsAlwaysCallable passes }
    ensures part { length result.now ≤ length text.now }
    ensures before { (test : ℕ → Bool) → Computes (F.post passes) test → result.now ≡ before test text.now }
{
    for (i, b) in text.iter().enumerate() {
        if passes(*b) {
            return &text[..i];
        }
    }
    text
}

// What stands from that byte on.
pub(crate) fn since<F: Fn(u8) -> bool>(text: &[u8], passes: F) -> &[u8]
    requires { F.IsAlwaysCallable passes }
    ensures { (test : ℕ → Bool) → Computes (F.post passes) test → result.now ≡ since test text.now }
{
    &text[until(text, passes).len()..]
}
