// Words filled in.
ghost use Rattle.std.specs.Prelude.{◌≡◌, ◌++◌, ◌-◌, ◌≤◌, length, take, replicate};

// Fills a buffer with one word from `at` on.
pub fn fill(words: &mut [u16], at: usize, word: u16)
    requires { at ≤ length words.old }
    ensures { words.new ≡ take at words.old ++ replicate (length words.old - at) word }
{
    words[at..].fill(word);
}
