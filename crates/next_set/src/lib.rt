// The next set of a synthesis: the clauses that pass and the failing ones weakened, without those that contain another.
#![tactic(auto)]

ghost use Rattle.std.specs.Prelude.{◌≡◌, ◌≤◌, length};
ghost use Rattle.definitions.specs.Synthesis.{next};
ghost use Rattle.clause.specs.Rows.{row_count, clauses_of};
ghost use Rattle.task.specs.Reads.{task_of};
ghost use Rattle.clause_set.specs.Held.{Holds};
ghost use Rattle.next_set.specs.Build.{fitted};
ghost use Rattle.next_set.specs.Post.{Copied, TestedRound};

use clause::WIDTH;

pub mod test; // test.rt: the test of all clauses under all operators
pub mod weaken; // weaken.rt: failing clauses with one literal more

// Copies the rows that have no flag, and answers how many they are.
fn copy_unflagged(clauses: &[u16], flags: &[u8], work: &mut [u16]) -> usize
    requires { (length flags.now ≡ row_count clauses.now) × (length clauses.now ≤ length work.old) }
    ensures { Copied clauses.now flags.now work.new result }
{
    let mut to: usize = 0;
    let mut count: usize = 0;
    for (i, row) in clauses.chunks_exact(WIDTH).enumerate() {
        if flags[i] != 1 {
            to = writing::words(row, work, to);
            count += 1;
        }
    }
    count
}

// Builds the next set in `work`, where the clauses that fail have their flag and `due` says which operators fail clauses of how many literals.
pub fn next_set(
    image: &[u16],
    clauses: &[u16],
    atoms: usize,
    most: usize,
    rows: usize,
    failing: &[u8],
    due: &[u8],
    marks: &mut [u8],
    fails: &mut [u8],
    work: &mut [u16],
) -> Option<usize>
    requires { TestedRound image.now clauses.now atoms most rows failing.now due.now marks.old fails.old work.old }
    ensures { Holds rows result work.new (fitted rows (next (task_of image.now) most (clauses_of clauses.now))) }
{
    let count = copy_unflagged(clauses, failing, work);
    weaken::weaken(
        image, clauses, atoms, most, due, marks, fails, work, count, rows,
    )
}
