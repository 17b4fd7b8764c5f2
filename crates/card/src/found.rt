// The text of a finding.
ghost use Rattle.std.specs.Prelude.{◌≤◌, length};
ghost use Rattle.definitions.specs.Literal.{most_atoms};
ghost use Rattle.definitions.specs.Card.{found_text};
ghost use Rattle.clause.specs.Rows.{clauses_of, ClausesRead};
ghost use Rattle.writing.specs.Writing.{Wrote};
ghost use Rattle.cover.specs.Cover.{Room};
ghost use Rattle.card.specs.Room.{most_text};
ghost use Rattle.card.specs.Text.{finding_of};

// Writes the text of a finding over `atoms` atoms, with room for their places and for the groups.
fn write_covered(
    out: &mut [u8],
    clauses: &[u16],
    rounds: usize,
    atoms: usize,
    places: &mut [u16],
    sizes: &mut [u16],
    none: &mut [u16],
) -> usize
    requires { (ClausesRead atoms clauses.now) × (Room atoms places.old sizes.old none.old)
        × (length (found_text atoms (finding_of (clauses_of clauses.now) rounds)) ≤ length out.old) }
    ensures { Wrote out.old 0 (found_text atoms (finding_of (clauses_of clauses.now) rounds)) out.new result }
{
    let count = cover::cover(clauses, atoms, places, sizes, none);
    let to = super::line::write_set(out, 0, clauses, rounds);
    super::group::write_cover(out, to, places, none, count)
}

// Writes the text of a finding: its clauses over `atoms` atoms, its rounds and its groups.
pub fn write_found(out: &mut [u8], clauses: &[u16], rounds: usize, atoms: usize) -> usize
    requires { (ClausesRead atoms clauses.now) × (atoms ≤ most_atoms) × (most_text ≤ length out.old) }
    ensures { Wrote out.old 0 (found_text atoms (finding_of (clauses_of clauses.now) rounds)) out.new result }
{
    let mut places = [0u16; literal::MOST_LITERALS];
    let mut sizes = [0u16; literal::MOST_ATOMS];
    let mut none = [1u16; literal::MOST_ATOMS];
    let words = 2 * atoms;
    write_covered(
        out,
        clauses,
        rounds,
        atoms,
        &mut places[..words],
        &mut sizes,
        &mut none,
    )
}
