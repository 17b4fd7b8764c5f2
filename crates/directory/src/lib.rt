// The directory of an image: pairs (offset, length) that name its parts.
#![tactic(auto)]

ghost use Rattle.std.specs.Prelude.{◌≡◌, ◌+◌, ◌≤◌};
ghost use Rattle.definitions.specs.Image.{most_operators, directory, part};
ghost use Rattle.directory.specs.Directory.{Lies};

// The most operators of a task or a re-encoded task. An image has a part for each, and at most four others.
pub const MOST_OPERATORS: usize = 1024;

// Whether the image has a right directory of `pairs` pairs.
pub fn is_directory(image: &[u16], pairs: usize) -> bool
    requires { pairs ≤ most_operators + 4 }
    ensures { result ≡ directory image.now pairs }
{
    let mut at = 2 + 2 * pairs;
    if image.len() < at {
        return false;
    }
    for pair in image[2..at].chunks_exact(2) {
        if literal::wide(pair[0]) != at {
            return false;
        }
        at += literal::wide(pair[1]);
    }
    at == image.len()
}

// The part that pair `i` names.
pub fn part(image: &[u16], i: usize) -> &[u16]
    requires { Lies image.now i }
    ensures { result.now ≡ part image.now i }
{
    let start = literal::wide(image[2 + 2 * i]);
    let end = start + literal::wide(image[3 + 2 * i]);
    &image[start..end]
}
