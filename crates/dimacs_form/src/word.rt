// Blanks, and the words between them.
ghost use Rattle.std.specs.Prelude.{◌≡◌, ◌≤◌, ◌<◌, length};
ghost use Rattle.definitions.specs.Dimacs.{blank};
ghost use Rattle.dimacs_form.specs.Places.{Place, Skipped, WordAt};

// Whether a byte is a space or a line end.
pub fn is_blank(b: u8) -> bool
    ensures { result ≡ blank b }
{
    b == b' ' || b == b'\n'
}

// The first place from `at` on with no blank, or the end.
pub fn skip_blanks(text: &[u8], at: usize) -> usize
    requires { at ≤ length text.now }
    ensures { Skipped text.now at result }
{
    for i in at..text.len() {
        if !is_blank(text[i]) {
            return i;
        }
    }
    text.len()
}

// The end of the word that begins at `at`.
pub fn word_end(text: &[u8], at: usize) -> usize
    requires { Place text.now at × (at < length text.now) }
    ensures { WordAt text.now at result }
{
    for i in at + 1..text.len() {
        if is_blank(text[i]) {
            return i;
        }
    }
    text.len()
}
