// Words and bytes written into a lent buffer, from a place on. Each function gives the place after what it wrote.
#![tactic(auto)]

ghost use Rattle.std.specs.Prelude.{◌≡◌, [], ◌∷◌, ◌+◌, ◌*◌, ◌≤◌, ◌<◌, length};
ghost use Rattle.definitions.specs.Card.{words_of};
ghost use Rattle.writing.specs.Writing.{Wrote};

pub mod directory; // directory.rt: pairs and directories of images

// Writes items of any kind, one by one: `copy_from_slice` calls memmove, which the library for C doesn't need otherwise.
pub fn write<T: Copy>(items: &[T], target: &mut [T], at: usize) -> usize
    requires { at + length items.now ≤ length target.old }
    ensures { Wrote target.old at items.now target.new result }
{
    for (i, item) in items.iter().enumerate() {
        target[at + i] = *item;
    }
    at + items.len()
}

pub fn words(words: &[u16], target: &mut [u16], at: usize) -> usize
    requires { at + length words.now ≤ length target.old }
    ensures { Wrote target.old at words.now target.new result }
{
    write(words, target, at)
}

pub fn bytes(bytes: &[u8], target: &mut [u8], at: usize) -> usize
    requires { at + length bytes.now ≤ length target.old }
    ensures { Wrote target.old at bytes.now target.new result }
{
    write(bytes, target, at)
}

pub fn byte(byte: u8, target: &mut [u8], at: usize) -> usize
    requires { at < length target.old }
    ensures { Wrote target.old at (byte ∷ []) target.new result }
{
    target[at] = byte;
    at + 1
}

// A little-endian word.
fn word(low: u8, high: u8) -> u16
    ensures { result ≡ low + 256 * high }
{
    u16::from_le_bytes([low, high])
}

// Writes the little-endian words of bytes at the start of `target`. An odd byte at the end is left out.
pub fn words_of(bytes: &[u8], target: &mut [u16]) -> usize
    requires { length bytes.now ≤ 2 * length target.old + 1 }
    ensures { Wrote target.old 0 (words_of bytes.now) target.new result }
{
    for (i, pair) in bytes.chunks_exact(2).enumerate() {
        target[i] = word(pair[0], pair[1]);
    }
    bytes.len() / 2
}
