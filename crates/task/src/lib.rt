// Reading of a task image (questions 1 to 7), and access to the parts of an image that reads as a task.
#![tactic(auto)]

ghost use Rattle.std.specs.Prelude.{◌≡◌, true, ◌≤◌, ◌<◌, length};
ghost use Rattle.definitions.specs.Answer.{verdict};
ghost use Rattle.definitions.specs.Literal.{most_atoms};
ghost use Rattle.definitions.specs.Image.{most_operators, read_operators, read_task};
ghost use Rattle.answer.specs.Answer.{verdict_answer};
ghost use Rattle.task.specs.Reads.{task_of, Reads};
ghost use Rattle.task.specs.Walk.{size_right, counts_right, lists_answer, parts_answer};
ghost use Rattle.task.specs.Post.{Laid, BlockGiven};

use answer::{Question, Refusal, ask};

pub mod block; // block.rt: questions 6 and 7 of the block of one operator
pub mod rows; // rows.rt: the precondition and the rows of a block

// The most words of a task image.
pub const MOST_WORDS: usize = 8192;

// The most operators of a task.
pub const MOST_OPERATORS: usize = directory::MOST_OPERATORS;

// Question 1.
fn is_size(image: &[u16]) -> bool
    ensures { result ≡ size_right image.now }
{
    6 <= image.len() && image.len() <= MOST_WORDS
}

// Question 2.
fn are_counts(image: &[u16]) -> bool
    requires { 6 ≤ length image.now }
    ensures { result ≡ counts_right image.now }
{
    let atoms = literal::wide(image[0]);
    let operators = literal::wide(image[1]);
    1 <= atoms && atoms <= literal::MOST_ATOMS && operators <= MOST_OPERATORS
}

// Questions 6 and 7 of the operators of an image, one operator before the next.
fn check_operators(image: &[u16], atoms: usize, operators: usize) -> Result<(), Refusal>
    requires { Laid image.now atoms operators }
    ensures { verdict_answer result ≡ verdict (read_operators atoms image.now 0 operators) }
{
    for i in 0..operators {
        block::check(directory::part(image, i + 2), atoms, i)?;
    }
    Ok(())
}

// Questions 4 to 7: the lists of an image, and its operators.
fn read_lists(image: &[u16], atoms: usize, operators: usize) -> Result<(), Refusal>
    requires { Laid image.now atoms operators }
    ensures { verdict_answer result ≡ lists_answer image.now atoms operators }
{
    let initial = directory::part(image, 0);
    ask(Question::Initial, literal::is_atom_list(initial, atoms))?;
    let goal = directory::part(image, 1);
    ask(Question::Goal, literal::is_literal_list(goal, atoms))?;
    check_operators(image, atoms, operators)
}

// Questions 3 to 7: the directory of an image, and its parts.
fn read_parts(image: &[u16]) -> Result<(), Refusal>
    requires { (6 ≤ length image.now) × (counts_right image.now ≡ true) }
    ensures { verdict_answer result ≡ parts_answer image.now }
{
    let operators = literal::wide(image[1]);
    let laid = directory::is_directory(image, operators + 2);
    ask(Question::Directory, laid)?;
    read_lists(image, literal::wide(image[0]), operators)
}

// Reads an image: questions 1 to 7.
pub fn read(image: &[u16]) -> Result<(), Refusal>
    ensures { verdict_answer result ≡ verdict (read_task image.now) }
{
    ask(Question::ImageSize, is_size(image))?;
    ask(Question::Counts, are_counts(image))?;
    read_parts(image)
}

// The number of atoms of an image that reads as a task.
pub fn atoms(image: &[u16]) -> usize
    requires { Reads image.now }
    ensures { (result ≡ (task_of image.now).atoms) × (result ≤ most_atoms) }
{
    literal::wide(image[0])
}

// The number of operators of an image that reads as a task.
pub fn operators(image: &[u16]) -> usize
    requires { Reads image.now }
    ensures { (result ≡ length (task_of image.now).operators) × (result ≤ most_operators) }
{
    literal::wide(image[1])
}

// The true atoms of the initial state of an image that reads as a task.
pub fn initial(image: &[u16]) -> &[u16]
    requires { Reads image.now }
    ensures { result.now ≡ (task_of image.now).initial }
{
    directory::part(image, 0)
}

// The goal of an image that reads as a task.
pub fn goal(image: &[u16]) -> &[u16]
    requires { Reads image.now }
    ensures { result.now ≡ (task_of image.now).goal }
{
    directory::part(image, 1)
}

// The block of operator `i`, as a part of the image.
pub fn operator_block(image: &[u16], i: usize) -> &[u16]
    requires { (Reads image.now) × (i < length (task_of image.now).operators) }
    ensures { BlockGiven result.now (task_of image.now) i }
{
    directory::part(image, i + 2)
}
