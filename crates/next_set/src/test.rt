// The test of all clauses under all operators.
ghost use Rattle.std.specs.Prelude.{◌≡◌, Bool, not, List, map, ℕ, ◌*◌, ◌≤◌, ◌<◌, eqb, length};
ghost use Rattle.definitions.specs.Lists.{any};
ghost use Rattle.definitions.specs.Image.{most_operators};
ghost use Rattle.definitions.specs.Closure.{bit};
ghost use Rattle.definitions.specs.Clauses.{width};
ghost use Rattle.definitions.specs.Kept.{kept};
ghost use Rattle.definitions.specs.Step.{operator_at};
ghost use Rattle.clause.specs.Rows.{row_count, clauses_of};
ghost use Rattle.task.specs.Reads.{task_of};
ghost use Rattle.judge.specs.Judging.{fail_flags};
ghost use Rattle.next_set.specs.Build.{fails_below};
ghost use Rattle.next_set.specs.Post.{ReadWithRoom, FlagsAdded, FailuresNoted};

use clause::WIDTH;

// Adds flags of clauses to those of `to`. In `due`, from position `at` on, it flags the numbers of literals of the flagged clauses.
fn add_flags(clauses: &[u16], flags: &[u8], to: &mut [u8], due: &mut [u8], at: usize)
    requires { (length flags.now ≡ row_count clauses.now) × (length flags.now ≡ length to.old) × (at ≤ width * most_operators) }
    ensures { (p : List ℕ → Bool) → flags.now
        ≡ map (λ f. bit (p f)) (clauses_of clauses.now) → FlagsAdded p (clauses_of clauses.now) at to.old to.new due.old due.new }
{
    for (i, row) in clauses.chunks_exact(WIDTH).enumerate() {
        if flags[i] == 1 {
            to[i] = 1;
            literal::flags::put(due, at + clause::literals(row).len(), 1);
        }
    }
}

// Whether there is a flag.
pub fn some_flag(flags: &[u8]) -> bool
    ensures { result ≡ any (λ x. eqb x 1) flags.now }
{
    flags.contains(&1)
}

// Flags the clauses that fail under an operator.
pub fn judge_operator(
    image: &[u16],
    clauses: &[u16],
    atoms: usize,
    operator: usize,
    marks: &mut [u8],
    fails: &mut [u8],
)
    requires { ReadWithRoom image.now clauses.now atoms marks.old fails.old × (operator < length (task_of image.now).operators) }
    ensures { fails.new ≡ fail_flags atoms (clauses_of clauses.now) (operator_at (task_of image.now) operator) (clauses_of clauses.now) }
{
    let block = task::operator_block(image, operator);
    judge::bulk::judge(clauses, clauses, block, marks, atoms, fails);
}

// Adds the flags of the clauses that fail under an operator. In `due`, at `WIDTH * operator + k`, it notes that a clause of `k` literals fails.
fn test_operator(
    image: &[u16],
    clauses: &[u16],
    atoms: usize,
    operator: usize,
    marks: &mut [u8],
    fails: &mut [u8],
    failing: &mut [u8],
    due: &mut [u8],
)
    requires { ReadWithRoom image.now clauses.now atoms marks.old fails.old × (operator < length (task_of image.now).operators)
        × (length failing.old ≡ row_count clauses.now) }
    ensures { FlagsAdded (λ f. not (kept atoms (clauses_of clauses.now) (operator_at (task_of image.now) operator) f)) (clauses_of clauses.now)
        (width * operator) failing.old failing.new due.old due.new }
{
    judge_operator(image, clauses, atoms, operator, marks, fails);
    add_flags(clauses, fails, failing, due, WIDTH * operator);
}

// Flags the clauses that fail under some operator, and notes in `due` which operators fail clauses of how many literals.
pub fn test(
    image: &[u16],
    clauses: &[u16],
    atoms: usize,
    marks: &mut [u8],
    fails: &mut [u8],
    failing: &mut [u8],
    due: &mut [u8],
)
    requires { ReadWithRoom image.now clauses.now atoms marks.old fails.old × (length failing.old ≡ row_count clauses.now) }
    ensures { (failing.new ≡ map (λ f. bit (fails_below (task_of image.now) (clauses_of clauses.now) (length (task_of image.now).operators) f))
        (clauses_of clauses.now)) × FailuresNoted (task_of image.now) (clauses_of clauses.now) due.new }
{
    literal::flags::clear(failing);
    literal::flags::clear(due);
    for operator in 0..task::operators(image) {
        test_operator(image, clauses, atoms, operator, marks, fails, failing, due);
    }
}
