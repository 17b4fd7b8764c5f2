// The directory of an image: two numbers, and pairs (offset, length) of the parts. What stands in the parts is written by others.
ghost use Rattle.std.specs.Prelude.{◌≡◌, [], ◌∷◌, ◌+◌, ◌*◌, ◌≤◌, ◌<◌, length};
ghost use Rattle.writing.specs.Writing.{Wrote};
ghost use Rattle.writing.specs.Directory.{sum, pairs_of, directory_of, size_of, DirectoryGiven};

// Writes two words.
pub fn pair(first: usize, second: usize, target: &mut [u16], at: usize) -> usize
    requires { (first < 65536) × (second < 65536) × (at + 2 ≤ length target.old) }
    ensures { Wrote target.old at (first ∷ second ∷ []) target.new result }
{
    target[at] = first as u16;
    target[at + 1] = second as u16;
    at + 2
}

// The number of words of an image with parts of these lengths.
pub fn size(lengths: &[u16]) -> usize
    requires { length lengths.now < 65536 }
    ensures { result ≡ size_of lengths.now }
{
    let words: usize = lengths.iter().map(|length| usize::from(*length)).sum();
    2 + 2 * lengths.len() + words
}

// Writes the pairs of parts of these lengths, the first of which begins at `start`.
fn pairs(lengths: &[u16], start: usize, target: &mut [u16], at: usize) -> usize
    requires { (start + sum lengths.now < 65536) × (at + 2 * length lengths.now ≤ length target.old) }
    ensures { Wrote target.old at (pairs_of start lengths.now) target.new result }
{
    let mut offset = start;
    let mut to = at;
    for length in lengths {
        let size = usize::from(*length);
        to = pair(offset, size, target, to);
        offset += size;
    }
    to
}

// Writes two numbers at the start of `target`, and the pairs of parts of these lengths, which begin right after the pairs.
pub fn directory(first: usize, second: usize, lengths: &[u16], target: &mut [u16]) -> usize
    requires { DirectoryGiven first second lengths.now target.old }
    ensures { Wrote target.old 0 (directory_of first second lengths.now) target.new result }
{
    let at = pair(first, second, target, 0);
    pairs(lengths, 2 + 2 * lengths.len(), target, at)
}
