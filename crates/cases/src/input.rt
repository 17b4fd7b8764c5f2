// The words of a case and its lists (specs/Case.antt says what they are).
ghost use Rattle.std.specs.Prelude.{◌≡◌, ◌+◌, ◌*◌, ◌≤◌, ◌<◌, min, length, get_or};
ghost use Rattle.cases.specs.Case.{most_input, most_words, most_bytes, last_end, list_length, bytes_length, stored_count, values_at, case_end};
ghost use Rattle.cases.specs.Case.{value_at, words_from, bytes_from, list_of, bytes_of, Loaded};

// The most words of an input, of a list of words, and the most bytes of the list of bytes.
const MOST_INPUT: usize = 32768;

const MOST_WORDS: usize = 8200;

const MOST_BYTES: usize = 2100;

// Words of a case before its stored values.
const HEADER: usize = 11;

// Room for the words of an input.
pub fn input_room() -> [u16; MOST_INPUT]
    ensures { length result ≡ most_input }
{
    [0u16; MOST_INPUT]
}

// Room for the bytes of an input.
pub fn input_bytes_room() -> [u8; 2 * MOST_INPUT]
    ensures { length result ≡ 2 * most_input }
{
    [0u8; 2 * MOST_INPUT]
}

// Room for a list of words.
pub fn words_room() -> [u16; MOST_WORDS]
    ensures { length result ≡ most_words }
{
    [0u16; MOST_WORDS]
}

// Room for the list of bytes.
pub fn bytes_room() -> [u8; MOST_BYTES]
    ensures { length result ≡ most_bytes }
{
    [0u8; MOST_BYTES]
}

// Word `i` of the input, zero after its end.
pub fn word(words: &[u16], i: usize) -> u16
    ensures { result ≡ get_or words.now i 0 }
{
    words.get(i).copied().unwrap_or(0)
}

// Word `i` of the input, or `most` if it is greater.
fn word_to(words: &[u16], i: usize, most: usize) -> usize
    ensures { result ≡ min (get_or words.now i 0) most }
{
    usize::from(word(words, i)).min(most)
}

// The length of list `k`, a list of words, in the case at word `at`.
pub fn list_length(words: &[u16], at: usize, k: usize) -> usize
    requires { (at ≤ most_input) × (k < 3) }
    ensures { result ≡ list_length words.now at k }
{
    word_to(words, at + 3 + 2 * k, MOST_WORDS)
}

// The length of the list of bytes in the case at word `at`.
pub fn bytes_length(words: &[u16], at: usize) -> usize
    requires { at ≤ most_input }
    ensures { result ≡ bytes_length words.now at }
{
    word_to(words, at + 9, MOST_BYTES)
}

// How many values of list `k` the case at word `at` stores.
fn stored(words: &[u16], at: usize, k: usize) -> usize
    requires { (at ≤ most_input) × (k < 4) }
    ensures { result ≡ stored_count words.now at k }
{
    word_to(words, at + 4 + 2 * k, MOST_WORDS)
}

// The word at which the stored values of list `k` of the case at word `at` begin.
fn start(words: &[u16], at: usize, k: usize) -> usize
    requires { (at ≤ most_input) × (k ≤ 4) }
    ensures { result ≡ values_at words.now at k }
{
    let mut from = at + HEADER;
    for i in 0..k {
        from += stored(words, at, i);
    }
    from
}

// The word after the case at word `at`.
pub fn end(words: &[u16], at: usize) -> usize
    requires { at ≤ most_input }
    ensures { result ≡ case_end words.now at }
{
    start(words, at, 4)
}

// Value `i` of a list whose first `count` values are stored from word `from` on.
fn value(words: &[u16], from: usize, count: usize, i: usize) -> u16
    requires { from + count ≤ last_end }
    ensures { result ≡ value_at words.now from count i }
{
    if i < count { word(words, from + i) } else { 7 }
}

fn load_words(words: &[u16], from: usize, count: usize, target: &mut [u16])
    requires { from + count ≤ last_end }
    ensures { target.new ≡ words_from words.now from count (length target.old) }
{
    for (i, word) in target.iter_mut().enumerate() {
        *word = value(words, from, count, i);
    }
}

fn load_bytes(words: &[u16], from: usize, count: usize, target: &mut [u8])
    requires { from + count ≤ last_end }
    ensures { target.new ≡ bytes_from words.now from count (length target.old) }
{
    for (i, byte) in target.iter_mut().enumerate() {
        *byte = (value(words, from, count, i) % 256) as u8;
    }
}

// Loads list `k`, a list of words, of the case at word `at`.
fn load_list(words: &[u16], at: usize, k: usize, target: &mut [u16])
    requires { (at ≤ most_input) × (k < 3) }
    ensures { target.new ≡ list_of words.now at k (length target.old) }
{
    load_words(words, start(words, at, k), stored(words, at, k), target);
}

// Loads the list of bytes of the case at word `at`.
fn load_small(words: &[u16], at: usize, target: &mut [u8])
    requires { at ≤ most_input }
    ensures { target.new ≡ bytes_of words.now at (length target.old) }
{
    load_bytes(words, start(words, at, 3), stored(words, at, 3), target);
}

// Loads the lists of the case at word `at`.
pub fn load(
    words: &[u16],
    at: usize,
    image: &mut [u16],
    list: &mut [u16],
    other: &mut [u16],
    small: &mut [u8],
)
    requires { at ≤ most_input }
    ensures { Loaded words.now at (length image.old) (length list.old) (length other.old) (length small.old) image.new list.new other.new small.new }
{
    load_list(words, at, 0, image);
    load_list(words, at, 1, list);
    load_list(words, at, 2, other);
    load_small(words, at, small);
}
