// Room for the largest task: local arrays of which only the length is promised.
ghost use Rattle.std.specs.Prelude.{◌≡◌, length};
ghost use Rattle.definitions.specs.Literal.{most_atoms, most_literals};

// A byte for each atom: a state.
pub fn state() -> [u8; super::MOST_ATOMS]
    ensures { length result ≡ most_atoms }
{
    [0u8; super::MOST_ATOMS]
}

// A byte for each literal: flags. Marks, a bit for each, have their room in `propagation`.
pub fn literal_flags() -> [u8; super::MOST_LITERALS]
    ensures { length result ≡ most_literals }
{
    [0u8; super::MOST_LITERALS]
}

// A word for each atom: the values of variables, of which there are no more than atoms.
pub fn values() -> [u16; super::MOST_ATOMS]
    ensures { length result ≡ most_atoms }
{
    [0u16; super::MOST_ATOMS]
}

// A word for each literal: a list of literals, or two words for each atom.
pub fn literals() -> [u16; super::MOST_LITERALS]
    ensures { length result ≡ most_literals }
{
    [0u16; super::MOST_LITERALS]
}
