// Marks: a bit for each literal. Literal l is bit l % 8, lowest first, of byte l / 8. No other file looks at the bits.
ghost use Rattle.std.specs.Prelude.{◌≡◌, true, List, ℕ, ◌+◌, ◌*◌, ◌/◌, ◌≤◌, ◌<◌, length};
ghost use Rattle.definitions.specs.Lists.{keep, below};
ghost use Rattle.definitions.specs.Literal.{most_atoms, all_below};
ghost use Rattle.definitions.specs.Closure.{has};
ghost use Rattle.definitions.specs.Kept.{all_in};
ghost use Rattle.definitions.specs.Marks.{mark_bytes, marked, marked_literals};
ghost use Rattle.propagation.specs.Marks.{Marked};
ghost use Rattle.propagation.specs.Walk.{Adds, Cleared};

// The number of bytes of the marks of so many atoms.
pub fn bytes(atoms: usize) -> usize
    requires { atoms ≤ most_atoms }
    ensures { result ≡ mark_bytes atoms }
{
    atoms.div_ceil(4)
}

// The most bytes of marks.
pub const MOST_BYTES: usize = 256;

// Room for the marks of the largest task.
pub fn room() -> [u8; MOST_BYTES]
    ensures { length result ≡ mark_bytes most_atoms }
{
    [0u8; MOST_BYTES]
}

// Whether literal `l` is marked, where its byte is there.
pub(crate) fn is_marked(marks: &[u8], l: usize) -> bool
    requires { l / 8 < length marks.now }
    ensures { result ≡ marked marks.now l }
{
    (marks[l / 8] as usize >> (l % 8)) % 2 == 1
}

// Whether literal `l` is marked.
pub fn holds(marks: &[u8], l: usize) -> bool
    ensures { (atoms : ℕ) (S : List ℕ) → Marked atoms marks.now S → l < 2 * atoms → result ≡ has S l }
{
    l / 8 < marks.len() && is_marked(marks, l)
}

// Whether all literals of a list are marked.
pub fn holds_all(marks: &[u8], literals: &[u16]) -> bool
    ensures { (atoms : ℕ) (S : List ℕ) → Marked atoms marks.now S → all_below (2 * atoms) literals.now ≡ true
        → result ≡ all_in S literals.now }
{
    literals.iter().all(|l| holds(marks, literal::wide(*l)))
}

// Copies the marks of so many atoms.
pub fn copy(from: &[u8], to: &mut [u8], atoms: usize)
    requires { (atoms ≤ most_atoms) × (mark_bytes atoms ≤ length from.now) × (mark_bytes atoms ≤ length to.old) }
    ensures { (S : List ℕ) → Marked atoms from.now S → Marked atoms to.new S }
{
    let end = bytes(atoms);
    to[..end].copy_from_slice(&from[..end]);
}

// Marks literal `l`. Whether it was not marked.
pub(crate) fn add(marks: &mut [u8], l: usize) -> bool
    requires { l / 8 < length marks.old }
    ensures { Adds marks.old l marks.new result }
{
    if is_marked(marks, l) {
        return false;
    }
    let i = l / 8;
    marks[i] |= 1 << (l % 8);
    true
}

// Unmarks the literals of so many atoms: whole bytes, then the lowest bits of the next. What is beyond them stays.
pub(crate) fn clear(marks: &mut [u8], atoms: usize)
    requires { mark_bytes atoms ≤ length marks.old }
    ensures { Cleared atoms marks.old marks.new }
{
    let whole = atoms / 4;
    marks[..whole].fill(0);
    let left = 2 * (atoms % 4);
    if left != 0 {
        marks[whole] -= marks[whole] % (1 << left);
    }
}

// The number of marked literals in the last byte, where the marks of so many atoms leave some of its bits.
fn count_last(marks: &[u8], atoms: usize) -> usize
    requires { mark_bytes atoms ≤ length marks.now }
    ensures { (result ≤ 8)
        × (length (keep (marked marks.now) (below (8 * (atoms / 4)))) + result ≡ length (marked_literals atoms marks.now)) }
{
    let bits = 2 * (atoms % 4);
    if bits == 0 {
        return 0;
    }
    (marks[atoms / 4] & ((1 << bits) - 1)).count_ones() as usize
}

// The number of marked literals: the ones of each byte summed, the last byte masked.
pub fn count(marks: &[u8], atoms: usize) -> usize
    requires { (atoms ≤ most_atoms) × (mark_bytes atoms ≤ length marks.now) }
    ensures { result ≡ length (marked_literals atoms marks.now) }
{
    let mut number: usize = 0;
    for byte in &marks[..atoms / 4] {
        number += byte.count_ones() as usize;
    }
    number + count_last(marks, atoms)
}
