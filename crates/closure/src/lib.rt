// The closure shown: what a clause set says about one operator.
#![tactic(auto)]

ghost use Rattle.std.specs.Prelude.{◌≡◌, length};
ghost use Rattle.definitions.specs.Answer.{finding, outcome};
ghost use Rattle.definitions.specs.Groups.{written};
ghost use Rattle.definitions.specs.ClosureCall.{shown, closure_call};
ghost use Rattle.clause.specs.Rows.{clauses_of};
ghost use Rattle.task.specs.Reads.{task_of};
ghost use Rattle.answer.specs.Answer.{count_answer};
ghost use Rattle.closure.specs.Asked.{Asks};

use answer::{Question, Refusal, ask};

// Marks the closure of the clauses and the operator's precondition, and counts its literals.
fn show(image: &[u16], clauses: &[u16], operator: usize, marks: &mut [u8]) -> usize
    requires { Asks image.now clauses.now operator (length marks.old) }
    ensures { outcome (finding result) marks.new
        ≡ written marks.old (finding (shown (task_of image.now) (clauses_of clauses.now) operator marks.old)) }
{
    let atoms = task::atoms(image);
    let block = task::operator_block(image, operator);
    let precondition = task::rows::precondition(block);
    propagation::close_fully(clauses, precondition, marks, atoms);
    propagation::marks::count(marks, atoms)
}

// The closure of the clauses and an operator's precondition, in the marks, without a stop at a complement: 1 to 9, 19, 13. Gives the
// number of its literals.
pub fn closure(
    image: &[u16],
    clauses: &[u16],
    operator: u16,
    marks: &mut [u8],
) -> Result<usize, Refusal>
    ensures { outcome (count_answer result) marks.new
        ≡ written marks.old (closure_call image.now clauses.now operator marks.old) }
{
    reading::read(image, clauses)?;
    let number = literal::wide(operator);
    ask(Question::OperatorNumber, number < task::operators(image))?;
    let needed = propagation::marks::bytes(task::atoms(image));
    ask(Question::Buffers, needed <= marks.len())?;
    Ok(show(image, clauses, number, marks))
}
