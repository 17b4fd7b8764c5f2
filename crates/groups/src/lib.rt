// The groups of a task by an accepted clause set: its variables, their values and domains.
#![tactic(auto)]

ghost use Rattle.std.specs.Prelude.{◌≡◌, length};
ghost use Rattle.definitions.specs.Answer.{outcome};
ghost use Rattle.definitions.specs.Groups.{written, groups_call};
ghost use Rattle.answer.specs.Answer.{count_answer};
ghost use Rattle.task.specs.Reads.{task_of, Reads};
ghost use Rattle.clause.specs.Rows.{clauses_of, ClausesRead};
ghost use Rattle.cover.specs.Cover.{Room};
ghost use Rattle.groups.specs.Groups.{groups_answer};

use answer::{Question, Refusal, ask};

// Question 16, and the groups written, with room for the places of the atoms and for the groups.
fn write_groups(
    clauses: &[u16],
    atoms: usize,
    places: &mut [u16],
    sizes: &mut [u16],
    none: &mut [u16],
    target: &mut [u16],
) -> Result<usize, Refusal>
    requires { (ClausesRead atoms clauses.now) × (Room atoms places.old sizes.old none.old) }
    ensures { outcome (count_answer result) target.new ≡ written target.old (groups_answer atoms (clauses_of clauses.now) (length target.old)) }
{
    let count = cover::cover(clauses, atoms, places, sizes, none);
    let needed = 2 * count + 2 * atoms;
    ask(Question::Target, needed <= target.len())?;
    cover::write(places, sizes, none, count, target, 0);
    Ok(count)
}

// The groups of a task and of clauses that are read.
pub fn groups_read(image: &[u16], clauses: &[u16], target: &mut [u16]) -> Result<usize, Refusal>
    requires { (Reads image.now) × (ClausesRead (task_of image.now).atoms clauses.now) }
    ensures { outcome (count_answer result) target.new
        ≡ written target.old (groups_answer (task_of image.now).atoms (clauses_of clauses.now) (length target.old)) }
{
    let atoms = task::atoms(image);
    let mut places = [0u16; literal::MOST_LITERALS];
    let mut sizes = [0u16; literal::MOST_ATOMS];
    let mut none = [1u16; literal::MOST_ATOMS];
    let words = 2 * atoms;
    write_groups(
        clauses,
        atoms,
        &mut places[..words],
        &mut sizes,
        &mut none,
        target,
    )
}

// The groups of a task by a clause set: the checker's questions, then 16.
pub fn groups(
    image: &[u16],
    clauses: &[u16],
    marks: &mut [u8],
    target: &mut [u16],
) -> Result<usize, Refusal>
    ensures { outcome (count_answer result) target.new ≡ written target.old (groups_call image.now clauses.now (length marks.old) (length target.old)) }
{
    checker::accept(image, clauses, marks)?;
    groups_read(image, clauses, target)
}
