// The first set: the one-literal clauses that are true initially.
ghost use Rattle.std.specs.Prelude.{◌≡◌, true, ◌++◌, ◌*◌, ◌≤◌, length, drop, replicate};
ghost use Rattle.definitions.specs.Literal.{most_atoms, fill, is_state};
ghost use Rattle.definitions.specs.Clauses.{width, clause_words};
ghost use Rattle.definitions.specs.Synthesis.{first_set};
ghost use Rattle.task.specs.Reads.{task_of, Reads};
ghost use Rattle.synthesis.specs.Rounds.{units_from};

use clause::WIDTH;
use literal::Literal;

// Writes the one-literal clauses true in a state into rows of fill.
fn write_units(state: &[u8], words: &mut [u16])
    requires { (length state.now ≤ most_atoms) × (is_state (length state.now) state.now ≡ true) × (words.old ≡ replicate (width * length state.now) fill) }
    ensures { words.new ≡ clause_words (units_from state.now 0 (length state.now)) }
{
    let mut at: usize = 0;
    for (a, truth) in state.iter().enumerate() {
        words[at] = Literal::new(a as u16, *truth == 1).code;
        at += WIDTH;
    }
}

// Writes the rows of the first set into the words of as many rows as there are atoms.
fn write_rows(image: &[u16], words: &mut [u16])
    requires { Reads image.now × (length words.old ≡ width * (task_of image.now).atoms) }
    ensures { words.new ≡ clause_words (first_set (task_of image.now)) }
{
    let atoms = task::atoms(image);
    let mut state = literal::room::state();
    state::write_initial(image, &mut state[..atoms]);
    words.fill(Literal::FILL);
    write_units(&state[..atoms], words);
}

// Writes the first set into the first rows of a buffer.
pub fn write_first(image: &[u16], clauses: &mut [u16])
    requires { Reads image.now × (width * (task_of image.now).atoms ≤ length clauses.old) }
    ensures { clauses.new ≡ clause_words (first_set (task_of image.now)) ++ drop (width * (task_of image.now).atoms) clauses.old }
{
    write_rows(image, &mut clauses[..WIDTH * task::atoms(image)]);
}
