// Comment lines, and the header "p cnf".
ghost use Rattle.std.specs.Prelude.{not, ◌&&◌, ◌||◌, ◌≡◌, ◌≤◌, eqb, length, take, drop};
ghost use Rattle.definitions.specs.Lists.{compare_words, is_same};
ghost use Rattle.definitions.specs.Dimacs.{head_bytes, behind_comments};
ghost use Rattle.dimacs_form.specs.Walk.{headed_bytes};

// Whether a byte begins a line that is no comment.
fn stops(inside: bool, b: u8) -> bool
    ensures { result ≡ (not inside && not (eqb b 99)) }
{
    !inside && b != b'c'
}

// Whether the byte after `b` is in a comment.
fn goes_on(inside: bool, b: u8) -> bool
    ensures { result ≡ (not inside || not (eqb b 10)) }
{
    !inside || b != b'\n'
}

// The place after the comment lines.
pub fn behind_comments(text: &[u8]) -> usize
    ensures { (result ≤ length text.now) × (drop result text.now ≡ behind_comments text.now) }
{
    let mut inside = false;
    for (at, b) in text.iter().enumerate() {
        if stops(inside, *b) {
            return at;
        }
        inside = goes_on(inside, *b);
    }
    text.len()
}

// Whether bytes begin with "p cnf".
fn is_head(bytes: &[u8]) -> bool
    requires { 6 ≤ length bytes.now }
    ensures { result ≡ is_same (compare_words (take 5 bytes.now) head_bytes) }
{
    bytes.starts_with(b"p cnf")
}

// Whether "p cnf" and a blank stand at a place.
pub fn is_headed(text: &[u8], at: usize) -> bool
    requires { at ≤ length text.now }
    ensures { result ≡ headed_bytes (drop at text.now) }
{
    text.len() - at >= 6 && is_head(&text[at..]) && super::word::is_blank(text[at + 5])
}
