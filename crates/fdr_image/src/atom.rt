// The atoms, as words: for each its variable and its value. Each atom value of each variable belongs to exactly one atom.
ghost use Rattle.std.specs.Prelude.{◌≡◌, ◌/◌, ◌≤◌, ◌<◌, length, get_or};
ghost use Rattle.definitions.specs.Lists.{all};
ghost use Rattle.definitions.specs.Literal.{most_atoms};
ghost use Rattle.definitions.specs.FdrImage.{domains_in, places_in, place_right, each_given_once};
ghost use Rattle.fdr_image.specs.Walk.{place, no_marks, all_new, ranks_in, atoms_right};
ghost use Rattle.fdr_image.specs.Post.{Starts, Started, Ranked, AllPlaced};

// Puts the rank of each variable's first value among the atom values of all variables into `starts`.
// Answers whether there are `atoms` of them in all, and stops where there are more.
fn put_starts(domains: &[u16], starts: &mut [u16], atoms: usize) -> bool
    requires { Starts (domains_in domains.now) starts.old atoms }
    ensures { Started (domains_in domains.now) atoms starts.new result }
{
    let mut sum: usize = 0;
    for v in 0..domains.len() / 2 {
        if atoms < sum {
            return false;
        }
        starts[v] = sum as u16;
        sum += super::domain::atom_values(domains, v);
    }
    sum == atoms
}

// The rank of an atom's value among the atom values of all variables.
fn rank_of(atoms: &[u16], starts: &[u16], atom: usize) -> usize
    requires { Ranked atoms.now starts.now × (atom < length atoms.now / 2) }
    ensures { (result ≡ get_or (ranks_in starts.now atoms.now) atom 0) × (result < most_atoms) }
{
    literal::wide(starts[variable(atoms, atom)]) + value(atoms, atom)
}

// Whether no two atoms have the same rank.
fn are_new(atoms: &[u16], starts: &[u16]) -> bool
    requires { Ranked atoms.now starts.now }
    ensures { result ≡ all_new no_marks (ranks_in starts.now atoms.now) }
{
    let mut marks = [0u8; literal::MOST_ATOMS];
    for i in 0..atoms.len() / 2 {
        let rank = rank_of(atoms, starts, i);
        if marks[rank] != 0 {
            return false;
        }
        marks[rank] = 1;
    }
    true
}

// Whether each atom value of each variable belongs to exactly one atom, where all atoms have atom values.
fn are_given_once(domains: &[u16], atoms: &[u16]) -> bool
    requires { AllPlaced (domains_in domains.now) (places_in atoms.now) }
    ensures { result ≡ each_given_once (domains_in domains.now) (places_in atoms.now) }
{
    let mut starts = literal::room::values();
    put_starts(domains, &mut starts, atoms.len() / 2) && are_new(atoms, &starts)
}

// Whether all atoms have atom values.
fn are_placed(domains: &[u16], atoms: &[u16]) -> bool
    ensures { result ≡ all (place_right (domains_in domains.now)) (places_in atoms.now) }
{
    atoms.chunks_exact(2).all(|pair| {
        let variable = literal::wide(pair[0]);
        let value = literal::wide(pair[1]);
        super::domain::is_atom_value(domains, variable, value)
    })
}

// Whether the words are 1 to the most atoms, and each atom value of each variable belongs to exactly one of them.
pub fn are_atoms(domains: &[u16], atoms: &[u16]) -> bool
    requires { length (domains_in domains.now) ≤ most_atoms }
    ensures { result ≡ atoms_right (domains_in domains.now) atoms.now }
{
    atoms.len() % 2 == 0
        && (1..=literal::MOST_ATOMS).contains(&(atoms.len() / 2))
        && are_placed(domains, atoms)
        && are_given_once(domains, atoms)
}

// The variable of an atom.
pub fn variable(atoms: &[u16], atom: usize) -> usize
    requires { atom < length (places_in atoms.now) }
    ensures { (result ≡ (get_or (places_in atoms.now) atom (place 0 0)).variable) × (result < 65536) }
{
    literal::wide(atoms[2 * atom])
}

// The value of an atom.
pub fn value(atoms: &[u16], atom: usize) -> usize
    requires { atom < length (places_in atoms.now) }
    ensures { (result ≡ (get_or (places_in atoms.now) atom (place 0 0)).value) × (result < 65536) }
{
    literal::wide(atoms[2 * atom + 1])
}
