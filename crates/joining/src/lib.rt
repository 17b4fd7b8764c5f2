// Two tasks joined: one image in which the second's atoms and operators follow the first's.
#![tactic(auto)]

ghost use Rattle.std.specs.Prelude.{◌≡◌, ◌+◌, ◌≤◌, length};
ghost use Rattle.definitions.specs.Answer.{outcome};
ghost use Rattle.definitions.specs.Groups.{written};
ghost use Rattle.definitions.specs.TaskWords.{task_words};
ghost use Rattle.definitions.specs.Join.{joined, join_fits, join_answer, join_call};
ghost use Rattle.answer.specs.Answer.{count_answer};
ghost use Rattle.task.specs.Reads.{task_of, Reads};
ghost use Rattle.writing.specs.Writing.{Wrote};
ghost use Rattle.joining.specs.Parts.{lists_of, operators_of, Joinable, PartGiven};

use answer::{Question, Refusal, ask};

pub mod parts; // parts.rt: the directory
pub mod shift; // shift.rt: literals and operators behind other atoms

// Question 27, for a target of `room` words. Each image has 6 words besides the pairs of its operators and its parts.
fn fits(left: &[u16], right: &[u16], room: usize) -> bool
    requires { (Reads left.now) × (Reads right.now) }
    ensures { result ≡ join_fits (joined (task_of left.now) (task_of right.now)) room }
{
    let words = left.len() + right.len() - 6;
    task::atoms(left) + task::atoms(right) <= literal::MOST_ATOMS
        && task::operators(left) + task::operators(right) <= task::MOST_OPERATORS
        && words <= task::MOST_WORDS
        && words <= room
}

// Writes the initial lists, then the goals.
fn write_lists(left: &[u16], right: &[u16], target: &mut [u16], at: usize) -> usize
    requires { PartGiven left.now right.now (lists_of (task_of left.now) (task_of right.now)) target.old at }
    ensures { Wrote target.old at (lists_of (task_of left.now) (task_of right.now)) target.new result }
{
    let before = task::atoms(left) as u16;
    let goal = shift::lists(
        task::initial(left),
        task::initial(right),
        before,
        target,
        at,
    );
    shift::lists(
        task::goal(left),
        task::goal(right),
        2 * before,
        target,
        goal,
    )
}

// Writes the operators of both.
fn write_operators(left: &[u16], right: &[u16], target: &mut [u16], at: usize) -> usize
    requires { PartGiven left.now right.now (operators_of (task_of left.now) (task_of right.now)) target.old at }
    ensures { Wrote target.old at (operators_of (task_of left.now) (task_of right.now)) target.new result }
{
    let before = task::atoms(left) as u16;
    let second = shift::operators(left, 0, target, at);
    shift::operators(right, before, target, second)
}

// Writes the joined image.
fn write(left: &[u16], right: &[u16], target: &mut [u16]) -> usize
    requires { Joinable left.now right.now target.old }
    ensures { Wrote target.old 0 (task_words (joined (task_of left.now) (task_of right.now))) target.new result }
{
    let lists = parts::header(left, right, target);
    let operators = write_lists(left, right, target, lists);
    write_operators(left, right, target, operators)
}

// The join of two images that read as tasks. Its length is known before the first word is written.
fn join_read(left: &[u16], right: &[u16], target: &mut [u16]) -> Result<usize, Refusal>
    requires { (Reads left.now) × (Reads right.now) }
    ensures { outcome (count_answer result) target.new ≡ written target.old (join_answer (task_of left.now) (task_of right.now) (length target.old)) }
{
    ask(Question::JoinRoom, fits(left, right, target.len()))?;
    Ok(write(left, right, target))
}

// The join of two images: 1-7 of the first, 1-7 of the second, 27. Gives the length of the joined image.
pub fn join(left: &[u16], right: &[u16], target: &mut [u16]) -> Result<usize, Refusal>
    ensures { outcome (count_answer result) target.new ≡ written target.old (join_call left.now right.now (length target.old)) }
{
    task::read(left)?;
    task::read(right)?;
    join_read(left, right, target)
}
