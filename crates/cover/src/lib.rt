// Mutex groups of atoms by a clause set: the variables of a re-encoding, their values and domains.
#![tactic(auto)]

ghost use Rattle.std.specs.Prelude.{◌+◌, ◌*◌, ◌≤◌, length};
ghost use Rattle.definitions.specs.Lists.{each, below};
ghost use Rattle.clause.specs.Rows.{clauses_of, ClausesRead};
ghost use Rattle.writing.specs.Writing.{Wrote};
ghost use Rattle.cover.specs.Cover.{Room, Covered};
ghost use Rattle.cover.specs.Domains.{domain_by, cover_words, Domained};

pub mod join; // join.rt: the groups
pub mod mutex; // mutex.rt: atoms that are mutex
pub mod none; // none.rt: which groups have the value none

use mutex::MutexAtoms;

// Groups as many atoms as `alone` has marks, and gives the number of groups.
fn cover_marked(
    clauses: &[u16],
    alone: &mut [u8],
    places: &mut [u16],
    sizes: &mut [u16],
    none: &mut [u16],
) -> usize
    requires { (ClausesRead (length alone.old) clauses.now) × (Room (length alone.old) places.old sizes.old none.old) }
    ensures { Covered (length alone.old) (clauses_of clauses.now) places.new sizes.new none.new result }
{
    mutex::mark_alone(clauses, alone);
    let atoms = MutexAtoms { clauses, alone };
    let count = atoms.join_all(places, sizes);
    none::omit_all(clauses, places, none);
    count
}

// Groups the atoms, and gives the number of groups. Two words of `places` become each atom's variable and value; of each
// group `sizes` holds the number of members, and `none` 1 if none is a value of it, else 0.
pub fn cover(
    clauses: &[u16],
    atoms: usize,
    places: &mut [u16],
    sizes: &mut [u16],
    none: &mut [u16],
) -> usize
    requires { (ClausesRead atoms clauses.now) × (Room atoms places.old sizes.old none.old) }
    ensures { Covered atoms (clauses_of clauses.now) places.new sizes.new none.new result }
{
    let mut alone = [0u8; literal::MOST_ATOMS];
    cover_marked(clauses, &mut alone[..atoms], places, sizes, none)
}

// Writes the domains part: of each variable the number of its values, with none if that is one, and 1 if it is.
fn domains(sizes: &[u16], none: &[u16], count: usize, target: &mut [u16], at: usize) -> usize
    requires { (Domained sizes.now none.now count) × (at + 2 * count ≤ length target.old) }
    ensures { Wrote target.old at (each (domain_by sizes.now none.now) (below count)) target.new result }
{
    let mut to = at;
    for v in 0..count {
        let one = none[v];
        target[to] = sizes[v] + one;
        target[to + 1] = one;
        to += 2;
    }
    to
}

// Writes the domains part, then the atoms part.
pub fn write(
    places: &[u16],
    sizes: &[u16],
    none: &[u16],
    count: usize,
    target: &mut [u16],
    at: usize,
) -> usize
    requires { (Domained sizes.now none.now count) × (at + length (cover_words places.now sizes.now none.now count) ≤ length target.old) }
    ensures { Wrote target.old at (cover_words places.now sizes.now none.now count) target.new result }
{
    let to = domains(sizes, none, count, target, at);
    writing::words(places, target, to)
}
