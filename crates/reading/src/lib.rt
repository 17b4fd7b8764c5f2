// A task image and a clause set, read together.
#![tactic(auto)]

ghost use Rattle.reading.specs.Reading.{BothAnswer};

use answer::Refusal;

// Reads a task image and clause rows: questions 1 to 9.
pub fn read(image: &[u16], clauses: &[u16]) -> Result<(), Refusal>
    ensures { BothAnswer image.now clauses.now result }
{
    task::read(image)?;
    clause::check_rows(clauses, task::atoms(image))
}
