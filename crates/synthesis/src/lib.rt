// Synthesis: rounds that test a set of clauses against itself and weaken those that fail, until none fails.
#![tactic(auto)]

ghost use Rattle.std.specs.Prelude.{◌≡◌, ◌++◌, ◌-◌, ◌*◌, ◌≤◌, length, take, drop, replicate};
ghost use Rattle.definitions.specs.Answer.{outcome, refused};
ghost use Rattle.answer.specs.Answer.{refusal_at};
ghost use Rattle.answer.specs.Question.{number_of};
ghost use Rattle.definitions.specs.Literal.{most_atoms};
ghost use Rattle.definitions.specs.Clauses.{width};
ghost use Rattle.definitions.specs.Synthesis.{first_set, rounds, rows_in, buffer_after, made_of, synthesis_call};
ghost use Rattle.clause.specs.Rows.{row_count, clauses_of};
ghost use Rattle.task.specs.Reads.{task_of};
ghost use Rattle.synthesis.specs.Answer.{synthesis_answer};
ghost use Rattle.synthesis.specs.Asked.{limits_right, buffers_right, Asked};
ghost use Rattle.synthesis.specs.Rounds.{Ready, Stepped, step_of, Begun, ended};

use answer::{Question, Refusal, ask};
use clause::{MOST_ROWS, WIDTH};

pub mod first; // first.rt: the first set

// What a synthesis finds: the number of rows of its clauses, and the number of rounds.
#[derive(Clone, Copy, Debug, PartialEq, Eq)]
pub struct Found {
    pub rows: usize,
    pub rounds: usize,
}

// How the rounds end.
#[derive(Clone, Copy)]
pub enum End {
    // No clause fails.
    Finished,
    // A clause fails, and no round is left.
    OutOfRounds,
    // The next set does not fit.
    OutOfRows,
}

// What a round comes to.
#[derive(Clone, Copy)]
pub enum Step {
    Ended(End),
    // The number of rows of the next set.
    Next(usize),
}

// The refusal of a question after which the clause buffer is zeros.
fn clear(clauses: &mut [u16], question: Question) -> Result<Found, Refusal>
    ensures { outcome (synthesis_answer result) clauses.new
        ≡ outcome (refused (refusal_at (number_of question) 0 0)) (replicate (length clauses.old) 0) }
{
    clauses.fill(0);
    Err(Refusal::from(question))
}

// Room for a flag for each operator and number of literals.
fn due_room() -> [u8; (task::MOST_OPERATORS + 1) * WIDTH] {
    [0u8; (task::MOST_OPERATORS + 1) * WIDTH]
}

// The step to the next set that was built.
fn step_to(built: Option<usize>) -> Step
    ensures { result ≡ step_of built }
{
    match built {
        None => Step::Ended(End::OutOfRows),
        Some(count) => Step::Next(count),
    }
}

// A round on the clauses, with a flag for each: the test, and the next set in `work` if a clause fails and this is not the last round.
fn round_flagged(
    image: &[u16],
    clauses: &[u16],
    atoms: usize,
    n: usize,
    rows: usize,
    last: bool,
    marks: &mut [u8],
    fails: &mut [u8],
    failing: &mut [u8],
    due: &mut [u8],
    work: &mut [u16],
) -> Step
    requires { Ready image.now clauses.now atoms n rows (length marks.old) (length work.old) × (length fails.old ≡ row_count clauses.now)
        × (length failing.old ≡ row_count clauses.now) }
    ensures { Stepped (task_of image.now) n rows last (clauses_of clauses.now) work.new result }
{
    next_set::test::test(image, clauses, atoms, marks, fails, failing, due);
    if !next_set::test::some_flag(failing) {
        return Step::Ended(End::Finished);
    }
    if last {
        return Step::Ended(End::OutOfRounds);
    }
    step_to(next_set::next_set(
        image, clauses, atoms, n, rows, failing, due, marks, fails, work,
    ))
}

// A round on the clauses.
fn round_on(
    image: &[u16],
    clauses: &[u16],
    atoms: usize,
    n: usize,
    rows: usize,
    last: bool,
    marks: &mut [u8],
    work: &mut [u16],
) -> Step
    requires { Ready image.now clauses.now atoms n rows (length marks.old) (length work.old) }
    ensures { Stepped (task_of image.now) n rows last (clauses_of clauses.now) work.new result }
{
    let mut fails = clause::flags_room();
    let mut failing = clause::flags_room();
    let mut due = due_room();
    let size = clause::rows(clauses);
    round_flagged(
        image,
        clauses,
        atoms,
        n,
        rows,
        last,
        marks,
        &mut fails[..size],
        &mut failing[..size],
        &mut due,
        work,
    )
}

// A round on the clauses of the first `count` rows.
fn round(
    image: &[u16],
    clauses: &[u16],
    count: usize,
    atoms: usize,
    n: usize,
    rows: usize,
    last: bool,
    marks: &mut [u8],
    work: &mut [u16],
) -> Step
    requires { (width * count ≤ length clauses.now) × Ready image.now (take (width * count) clauses.now) atoms n rows (length marks.old) (length work.old) }
    ensures { Stepped (task_of image.now) n rows last (clauses_of (take (width * count) clauses.now)) work.new result }
{
    let end = WIDTH * count;
    round_on(image, &clauses[..end], atoms, n, rows, last, marks, work)
}

// Copies the first `count` rows of the work buffer into the clause buffer.
fn take_rows(work: &[u16], count: usize, clauses: &mut [u16])
    requires { (width * count ≤ length work.now) × (width * count ≤ length clauses.old) }
    ensures { clauses.new ≡ take (width * count) work.now ++ drop (width * count) clauses.old }
{
    let end = WIDTH * count;
    writing::words(&work[..end], clauses, 0);
}

// The answer where the rounds end, `made` of them, with a set of `count` rows.
fn finish(clauses: &mut [u16], count: usize, made: usize, end: End) -> Result<Found, Refusal>
    requires { width * count ≤ length clauses.old }
    ensures { outcome (synthesis_answer result) clauses.new ≡ ended clauses.old count made end }
{
    match end {
        End::Finished => {
            clause_set::words::fill(clauses, WIDTH * count, 0);
            Ok(Found {
                rows: count,
                rounds: made,
            })
        }
        End::OutOfRounds => clear(clauses, Question::OutOfRounds),
        End::OutOfRows => clear(clauses, Question::OutOfRows),
    }
}

// All rounds, where the first set stands in the clause buffer.
fn run(
    image: &[u16],
    atoms: usize,
    n: usize,
    limit: usize,
    rows: usize,
    clauses: &mut [u16],
    work: &mut [u16],
    marks: &mut [u8],
) -> Result<Found, Refusal>
    requires { Begun image.now clauses.old work.old atoms n limit rows (length marks.old) }
    ensures { outcome (synthesis_answer result) clauses.new
        ≡ outcome (made_of (rounds (task_of image.now) n rows 1 (limit - 1) (first_set (task_of image.now))))
        (buffer_after clauses.old (rounds (task_of image.now) n rows 1 (limit - 1) (first_set (task_of image.now)))) }
{
    let mut count = atoms;
    let mut made = 1;
    loop {
        let last = made == limit;
        match round(image, clauses, count, atoms, n, rows, last, marks, work) {
            Step::Ended(end) => return finish(clauses, count, made, end),
            Step::Next(next) => {
                take_rows(work, next, clauses);
                count = next;
                made += 1;
            }
        }
    }
}

// The rows of a buffer.
fn rows_in(words: usize) -> usize
    ensures { result ≡ rows_in words }
{
    let rows = words / WIDTH;
    if rows < MOST_ROWS { rows } else { MOST_ROWS }
}

// Whether the number of literals and the round limit are right: question 12.
fn are_limits(n: usize, limit: usize) -> bool
    ensures { result ≡ limits_right n limit }
{
    if n < 1 {
        return false;
    }
    if WIDTH < n {
        return false;
    }
    if limit < 1 {
        return false;
    }
    limit <= 65535
}

// Whether the mark and the work buffer are long enough: question 13.
fn are_buffers(atoms: usize, words: usize, work: usize, marks: usize) -> bool
    requires { atoms ≤ most_atoms }
    ensures { result ≡ buffers_right atoms words work marks }
{
    propagation::marks::bytes(atoms) <= marks && words <= work
}

// Question 14 of the first set, then the rounds.
fn start(
    image: &[u16],
    n: usize,
    limit: usize,
    clauses: &mut [u16],
    work: &mut [u16],
    marks: &mut [u8],
) -> Result<Found, Refusal>
    requires { Asked image.now n limit (length clauses.old) (length work.old) (length marks.old) }
    ensures { outcome (synthesis_answer result) clauses.new ≡ synthesis_call image.now n limit clauses.old (length work.old) (length marks.old) }
{
    let atoms = task::atoms(image);
    let rows = rows_in(clauses.len());
    if rows < atoms {
        return clear(clauses, Question::OutOfRows);
    }
    first::write_first(image, clauses);
    run(image, atoms, n, limit, rows, clauses, work, marks)
}

// Synthesis: questions 1 to 7 and 12 to 15.
pub fn synthesize(
    image: &[u16],
    n: u16,
    limit: u16,
    clauses: &mut [u16],
    work: &mut [u16],
    marks: &mut [u8],
) -> Result<Found, Refusal>
    ensures { outcome (synthesis_answer result) clauses.new ≡ synthesis_call image.now n limit clauses.old (length work.old) (length marks.old) }
{
    let literals = literal::wide(n);
    let most = literal::wide(limit);
    task::read(image)?;
    ask(Question::Limits, are_limits(literals, most))?;
    let atoms = task::atoms(image);
    let fit = are_buffers(atoms, clauses.len(), work.len(), marks.len());
    ask(Question::Buffers, fit)?;
    start(image, literals, most, clauses, work, marks)
}
