// A word as a number: 0, or a minus or none and digits, the first of them not 0.
ghost use Rattle.std.specs.Prelude.{true, ◌&&◌, ◌≡◌, ◌+◌, ◌-◌, ◌*◌, ◌<◌, min, eqb, length, get_or};
ghost use Rattle.definitions.specs.Dimacs.{is_digit};
ghost use Rattle.dimacs_form.specs.Places.{Place};
ghost use Rattle.dimacs_form.specs.Numbers.{most_size, begins, DigitsOf, signed_of, Judged, Scanned};

#[derive(Clone, Copy)]
pub struct Number {
    pub minus: bool,
    // held at usize::MAX if it is greater
    pub size: usize,
    // the place where the next word begins, or the end
    pub next: usize,
}

fn is_digit(b: u8) -> bool
    ensures { result ≡ is_digit b }
{
    b.is_ascii_digit()
}

// The size with one more digit.
fn with_digit(size: usize, b: u8) -> usize
    requires { is_digit b ≡ true }
    ensures { result ≡ min most_size (10 * size + (b - 48)) }
{
    size.saturating_mul(10)
        .saturating_add(usize::from(b - b'0'))
}

// Whether a word begins with a digit that is not 0.
fn begins(word: &[u8]) -> bool
    ensures { result ≡ begins word.now }
{
    !word.is_empty() && (b'1'..=b'9').contains(&word[0])
}

// The size of digits, if a word is digits, the first of them not 0.
fn read_digits(word: &[u8]) -> Option<usize>
    ensures { DigitsOf word.now result }
{
    if !begins(word) {
        return None;
    }
    let mut size: usize = 0;
    for b in word {
        if !is_digit(*b) {
            return None;
        }
        size = with_digit(size, *b);
    }
    Some(size)
}

// The number of a sign and digits.
fn signed(minus: bool, digits: Option<usize>, next: usize) -> Option<Number>
    ensures { result ≡ signed_of minus digits next }
{
    digits.map(|size| Number { minus, size, next })
}

// Whether a word is 0.
fn is_zero(word: &[u8]) -> bool
    ensures { result ≡ (eqb (length word.now) 1 && eqb (get_or word.now 0 0) 48) }
{
    matches!(word, b"0")
}

// The number that a word is, if it is one.
fn judge(word: &[u8], next: usize) -> Option<Number>
    requires { 0 < length word.now }
    ensures { Judged word.now next result }
{
    if word[0] == b'-' {
        return signed(true, read_digits(&word[1..]), next);
    }
    if is_zero(word) {
        return signed(false, Some(0), next);
    }
    signed(false, read_digits(word), next)
}

// The number at a place, if the word there is one.
pub fn number_at(text: &[u8], at: usize) -> Option<Number>
    requires { Place text.now at × (at < length text.now) }
    ensures { Scanned text.now at result }
{
    let end = super::word::word_end(text, at);
    let next = super::word::skip_blanks(text, end);
    judge(&text[at..end], next)
}
