// The groups: in ascending order each atom joins the lowest group all of whose members are mutex with it, else opens the next.
// Two words of `places` hold each atom's variable and value, `sizes` holds the number of members of each group.
ghost use Rattle.std.specs.Prelude.{◌≡◌, ◌*◌, ◌+◌, ◌≤◌, ◌<◌, max, length, replicate};
ghost use Rattle.definitions.specs.Literal.{most_atoms};
ghost use Rattle.definitions.specs.Groups.{groups_below};
ghost use Rattle.clause.specs.Rows.{clauses_of};
ghost use Rattle.cover.specs.Join.{AtomRoom, Low, Apart, Lowest, Candidate, Joins, Free, Entered, Grouped};

use super::mutex::MutexAtoms;

// The lowest of `count` groups that is not marked, or the next group.
fn lowest(apart: &[u8], count: usize) -> usize
    requires { count ≤ length apart.now }
    ensures { Lowest apart.now count result }
{
    apart[..count]
        .iter()
        .position(|mark| *mark == 0)
        .unwrap_or(count)
}

// Puts atom `a` after the members of a group.
fn enter(places: &mut [u16], sizes: &mut [u16], a: usize, group: usize)
    requires { Free places.old sizes.old a group }
    ensures { Entered places.old sizes.old a group places.new sizes.new }
{
    let size = sizes[group];
    places[2 * a] = group as u16;
    places[2 * a + 1] = size;
    sizes[group] = size + 1;
}

impl MutexAtoms<'_> {
    // Marks the groups that hold an atom below `a` that is not mutex with `a`.
    fn mark_apart(&self, places: &[u16], a: usize, apart: &mut [u8])
        requires { (AtomRoom self.now.alone.now places.now a) × (Low places.now a) × (apart.old ≡ replicate most_atoms 0) }
        ensures { Apart (clauses_of self.now.clauses.now) places.now a a apart.new }
    {
        for b in 0..a {
            let mutex = self.is_mutex(a, b);
            let group = literal::wide(places[2 * b]);
            literal::flags::mark_if(!mutex, apart, group);
        }
    }

    // The group that atom `a` joins, where the atoms below it have joined `count` groups.
    fn choose(&self, places: &[u16], a: usize, count: usize) -> usize
        requires { (AtomRoom self.now.alone.now places.now a) × (Candidate (clauses_of self.now.clauses.now) places.now a count) }
        ensures { Joins (clauses_of self.now.clauses.now) a (groups_below (clauses_of self.now.clauses.now) a) result }
    {
        let mut apart = [0u8; literal::MOST_ATOMS];
        self.mark_apart(places, a, &mut apart);
        lowest(&apart, count)
    }

    // Groups all atoms, and gives the number of groups.
    pub fn join_all(&self, places: &mut [u16], sizes: &mut [u16]) -> usize
        requires { (2 * length self.now.alone.now ≤ length places.old) × (sizes.old ≡ replicate most_atoms 0) }
        ensures { Grouped (clauses_of self.now.clauses.now) (length self.now.alone.now) places.new sizes.new result }
    {
        let mut count = 0;
        for a in 0..self.alone.len() {
            let group = self.choose(places, a, count);
            enter(places, sizes, a, group);
            count = count.max(group + 1);
        }
        count
    }
}
