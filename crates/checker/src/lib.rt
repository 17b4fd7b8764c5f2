// The checker: whether every clause of a set holds initially and is kept under every operator.
#![tactic(auto)]

ghost use Rattle.std.specs.Prelude.{◌≡◌, ◌*◌, ◌≤◌, length, take};
ghost use Rattle.definitions.specs.Lists.{first_fail};
ghost use Rattle.definitions.specs.Answer.{verdict};
ghost use Rattle.definitions.specs.Literal.{holds_in};
ghost use Rattle.definitions.specs.Step.{operator_at};
ghost use Rattle.definitions.specs.Checker.{ask_true, ask_kept, check};
ghost use Rattle.definitions.specs.Marks.{mark_bytes};
ghost use Rattle.answer.specs.Answer.{verdict_answer};
ghost use Rattle.task.specs.Reads.{task_of};
ghost use Rattle.clause.specs.Rows.{row_count, clauses_of};
ghost use Rattle.judge.specs.Judging.{fail_flags};
ghost use Rattle.judge.specs.Promise.{Read};
ghost use Rattle.checker.specs.Search.{false_answer, FirstFlag, Judging};

use answer::{Question, Refusal, ask};
use clause::WIDTH;

// Whether all clauses hold in a state, or a refusal that names the lowest one that is false there.
pub fn check_true(clauses: &[u16], state: &[u8]) -> Result<(), Refusal>
    ensures { verdict_answer result ≡ false_answer (first_fail (holds_in state.now) 0 (clauses_of clauses.now)) }
{
    for (number, row) in clauses.chunks_exact(WIDTH).enumerate() {
        if !clause::holds(row, state) {
            return Err(Refusal::at(Question::ClauseFalse, number));
        }
    }
    Ok(())
}

// Question 10.
fn check_initial(image: &[u16], clauses: &[u16], atoms: usize) -> Result<(), Refusal>
    requires { Read image.now clauses.now atoms }
    ensures { verdict_answer result ≡ ask_true (task_of image.now) (clauses_of clauses.now) }
{
    let mut state = literal::room::state();
    state::write_initial(image, &mut state[..atoms]);
    check_true(clauses, &state[..atoms])
}

// The number of the first clause that has its flag, or the number of flags where there is none.
fn first_flag(flags: &[u8]) -> usize
    ensures { FirstFlag flags.now result }
{
    flags
        .iter()
        .position(|flag| *flag == 1)
        .unwrap_or(flags.len())
}

// The lowest of the first clauses, one for each flag, that is not kept under an operator, or their number where all are.
fn first_failing(
    image: &[u16],
    clauses: &[u16],
    atoms: usize,
    operator: usize,
    marks: &mut [u8],
    fails: &mut [u8],
) -> usize
    requires { Judging image.now clauses.now atoms operator (length marks.old) (length fails.old) }
    ensures { FirstFlag (fail_flags atoms (clauses_of clauses.now) (operator_at (task_of image.now) operator)
        (take (length fails.old) (clauses_of clauses.now))) result }
{
    let block = task::operator_block(image, operator);
    let end = WIDTH * fails.len();
    judge::bulk::judge(clauses, &clauses[..end], block, marks, atoms, fails);
    first_flag(fails)
}

// Question 11: the refusal names the lowest clause that is not kept, and under it the lowest operator. Under each operator
// only the clauses below the lowest that failed so far are judged.
fn check_kept(
    image: &[u16],
    clauses: &[u16],
    atoms: usize,
    marks: &mut [u8],
    fails: &mut [u8],
) -> Result<(), Refusal>
    requires { Read image.now clauses.now atoms × (mark_bytes atoms ≤ length marks.old) × (row_count clauses.now ≤ length fails.old) }
    ensures { verdict_answer result ≡ ask_kept (task_of image.now) (clauses_of clauses.now) 0 (clauses_of clauses.now) }
{
    let count = clause::rows(clauses);
    let mut low = count;
    let mut under = 0;
    for operator in 0..task::operators(image) {
        let first = first_failing(image, clauses, atoms, operator, marks, &mut fails[..low]);
        if first < low {
            low = first;
            under = operator;
        }
    }
    if low < count {
        return Err(Refusal {
            question: Question::ClauseNotKept,
            first: low,
            second: under,
        });
    }
    Ok(())
}

// Whether a set of clauses is accepted: questions 1 to 9, 13, 10, 11. 10 names the lowest false clause, 11 the lowest clause that is
// not kept and under it the lowest operator.
pub fn accept(image: &[u16], clauses: &[u16], marks: &mut [u8]) -> Result<(), Refusal>
    ensures { verdict_answer result ≡ verdict (check image.now clauses.now (length marks.old)) }
{
    reading::read(image, clauses)?;
    let atoms = task::atoms(image);
    let needed = propagation::marks::bytes(atoms);
    ask(Question::Buffers, needed <= marks.len())?;
    check_initial(image, clauses, atoms)?;
    let mut fails = clause::flags_room();
    check_kept(image, clauses, atoms, marks, &mut fails)
}
