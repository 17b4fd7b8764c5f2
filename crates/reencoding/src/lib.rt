// Re-encoding of a task by an accepted clause set: the finite-domain image.
#![tactic(auto)]

ghost use Rattle.std.specs.Prelude.{◌≡◌, ◌+◌, ◌≤◌, length};
ghost use Rattle.definitions.specs.Answer.{outcome};
ghost use Rattle.definitions.specs.Groups.{written};
ghost use Rattle.definitions.specs.Encoding.{encode_call};
ghost use Rattle.answer.specs.Answer.{count_answer};
ghost use Rattle.task.specs.Reads.{task_of, Reads};
ghost use Rattle.clause.specs.Rows.{clauses_of, ClausesRead};
ghost use Rattle.cover.specs.Cover.{Room};
ghost use Rattle.writing.specs.Writing.{Wrote};
ghost use Rattle.reencoding.specs.Parts.{task_by, image_by};
ghost use Rattle.reencoding.specs.Image.{Valued, Measured, encode_answer};

use answer::{Question, Refusal, ask};

pub mod block; // block.rt: literals and operators as words of the image
pub mod initial; // initial.rt: the initial values
pub mod parts; // parts.rt: lengths and operators

// Writes the initial values, the goal and the operators of a task whose atoms are in `count` groups.
fn write_parts(
    image: &[u16],
    places: &[u16],
    sizes: &[u16],
    count: usize,
    target: &mut [u16],
    at: usize,
) -> usize
    requires { (Reads image.now) × (Valued (task_of image.now) places.now sizes.now count)
        × (at + length (task_by (task_of image.now) places.now sizes.now count) ≤ length target.old) }
    ensures { Wrote target.old at (task_by (task_of image.now) places.now sizes.now count) target.new result }
{
    let goal = initial::values(task::initial(image), places, sizes, count, target, at);
    let operators = block::literals(task::goal(image), places, target, goal);
    parts::operators(image, places, target, operators)
}

// Writes the image of a task whose atoms are in `count` groups, and whose image has parts of these lengths.
fn write_image(
    image: &[u16],
    places: &[u16],
    sizes: &[u16],
    none: &[u16],
    count: usize,
    lengths: &[u16],
    target: &mut [u16],
) -> usize
    requires { (Reads image.now) × (Measured (task_of image.now) places.now sizes.now none.now count lengths.now)
        × (length (image_by (task_of image.now) places.now sizes.now none.now count) ≤ length target.old) }
    ensures { Wrote target.old 0 (image_by (task_of image.now) places.now sizes.now none.now count) target.new result }
{
    let operators = task::operators(image);
    let variables = writing::directory::directory(count, operators, lengths, target);
    let values = cover::write(places, sizes, none, count, target, variables);
    write_parts(image, places, sizes, count, target, values)
}

// Question 16, and the image written, with room for the places of the atoms and for the groups. The length is known before
// the first word is written.
fn write_task(
    image: &[u16],
    clauses: &[u16],
    places: &mut [u16],
    sizes: &mut [u16],
    none: &mut [u16],
    target: &mut [u16],
) -> Result<usize, Refusal>
    requires { (Reads image.now) × (ClausesRead (task_of image.now).atoms clauses.now) × (Room (task_of image.now).atoms places.old sizes.old none.old) }
    ensures { outcome (count_answer result) target.new ≡ written target.old (encode_answer (task_of image.now) (clauses_of clauses.now) (length target.old)) }
{
    let atoms = task::atoms(image);
    let count = cover::cover(clauses, atoms, places, sizes, none);
    let mut room = [0u16; parts::MOST_PARTS];
    let used = parts::lengths(image, count, &mut room);
    let lengths = &room[..used];
    let words = writing::directory::size(lengths);
    ask(Question::Target, words <= target.len())?;
    write_image(image, places, sizes, none, count, lengths, target);
    Ok(words)
}

// The re-encoding of a task by clauses that are read. Not inlined, so that its buffers are not on the stack while the checker runs.
#[inline(never)]
pub fn reencode_read(image: &[u16], clauses: &[u16], target: &mut [u16]) -> Result<usize, Refusal>
    requires { (Reads image.now) × (ClausesRead (task_of image.now).atoms clauses.now) }
    ensures { outcome (count_answer result) target.new ≡ written target.old (encode_answer (task_of image.now) (clauses_of clauses.now) (length target.old)) }
{
    let mut places = [0u16; literal::MOST_LITERALS];
    let mut sizes = [0u16; literal::MOST_ATOMS];
    let mut none = [1u16; literal::MOST_ATOMS];
    let words = 2 * task::atoms(image);
    write_task(
        image,
        clauses,
        &mut places[..words],
        &mut sizes,
        &mut none,
        target,
    )
}

// The re-encoding of a task by a clause set: the checker's questions, then 16. Gives the length of the image.
pub fn reencode(
    image: &[u16],
    clauses: &[u16],
    marks: &mut [u8],
    target: &mut [u16],
) -> Result<usize, Refusal>
    ensures { outcome (count_answer result) target.new ≡ written target.old (encode_call image.now clauses.now (length marks.old) (length target.old)) }
{
    checker::accept(image, clauses, marks)?;
    reencode_read(image, clauses, target)
}
