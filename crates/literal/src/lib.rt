// Literals and lists of them, as words of an image.
#![tactic(auto)]

ghost use Rattle.std.specs.Prelude.{◌≡◌, ◌&&◌, ◌<◌, ◌≤◌, get_or};
ghost use Rattle.definitions.specs.Lists.{ascending};
ghost use Rattle.definitions.specs.Literal.{most_atoms, atom, positive, complement, all_below, literal_list, is_state, true_in, all_true};
ghost use Rattle.literal.specs.Literal.{literal_of, has_sign};

pub mod flags; // flags.rt: flags, a byte each
pub mod room; // room.rt: local arrays for the largest task

// The most atoms of a task.
pub const MOST_ATOMS: usize = 1024;

// The most literals: two of each atom.
pub const MOST_LITERALS: usize = 2048;

// A literal: twice its atom if the atom is true, one more if it is false.
#[derive(Clone, Copy)]
pub struct Literal {
    pub code: u16,
}

impl Literal {
    // The word that fills a clause row after its literals.
    pub const FILL: u16 = 65535;

    pub fn new(atom: u16, truth: bool) -> Literal
        requires { atom < 32767 }
        ensures { result.code ≡ literal_of atom truth }
    {
        if truth {
            Literal { code: 2 * atom }
        } else {
            Literal { code: 2 * atom + 1 }
        }
    }

    pub fn complement(self) -> Literal
        requires { self.code < 65535 }
        ensures { result.code ≡ complement self.code }
    {
        Literal {
            code: self.code ^ 1,
        }
    }

    pub fn atom(self) -> usize
        ensures { result ≡ atom self.code }
    {
        wide(self.code / 2)
    }

    pub fn is_positive(self) -> bool
        ensures { result ≡ positive self.code }
    {
        self.code % 2 == 0
    }

    // Whether the literal is positive, if `positive`, or negative, if not.
    pub fn has_sign(self, positive: bool) -> bool
        ensures { result ≡ has_sign positive self.code }
    {
        self.is_positive() == positive
    }

    // The literal's place in a list with one place for each literal.
    pub fn index(self) -> usize
        ensures { result ≡ self.code }
    {
        wide(self.code)
    }
}

// A word as an index.
pub fn wide(x: u16) -> usize
    ensures { (result ≡ x) × (result < 65536) }
{
    usize::from(x)
}

// Whether the words are strictly ascending atoms below `atoms`. As they ascend, only the last is compared with `atoms`.
pub fn is_atom_list(words: &[u16], atoms: usize) -> bool
    ensures { result ≡ (ascending words.now && all_below atoms words.now) }
{
    let mut from: usize = 0;
    for word in words {
        let x = wide(*word);
        if x < from {
            return false;
        }
        from = x + 1;
    }
    from <= atoms
}

// Whether the words are a literal list over `atoms` atoms. As they ascend, only the last is compared with the number of literals.
pub fn is_literal_list(words: &[u16], atoms: usize) -> bool
    requires { atoms ≤ most_atoms }
    ensures { result ≡ literal_list atoms words.now }
{
    let mut from: usize = 0;
    for word in words {
        let x = wide(*word);
        if x < from {
            return false;
        }
        from = x / 2 * 2 + 2;
    }
    from <= 2 * atoms
}

// Whether a state has `atoms` bytes, each 0 or 1.
pub fn is_state(state: &[u8], atoms: usize) -> bool
    ensures { result ≡ is_state atoms state.now }
{
    state.len() == atoms && state.iter().all(|value| *value < 2)
}

// The byte of an atom in a state, zero for an atom outside it.
fn value(state: &[u8], atom: usize) -> u8
    ensures { result ≡ get_or state.now atom 0 }
{
    state.get(atom).copied().unwrap_or(0)
}

// Whether a literal is true in a state.
pub fn is_true(state: &[u8], l: Literal) -> bool
    ensures { result ≡ true_in state.now l.code }
{
    let x = value(state, l.atom());
    if l.is_positive() { x == 1 } else { x == 0 }
}

// Whether all literals of a list are true in a state.
pub fn all_true(state: &[u8], literals: &[u16]) -> bool
    ensures { result ≡ all_true state.now literals.now }
{
    literals
        .iter()
        .all(|l| is_true(state, Literal { code: *l }))
}
