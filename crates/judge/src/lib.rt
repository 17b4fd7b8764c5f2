// Kept clauses: one clause under one operator, and many clauses at once.
#![tactic(auto)]

ghost use Rattle.std.specs.Prelude.{◌≡◌, length};
ghost use Rattle.definitions.specs.Answer.{finding};
ghost use Rattle.definitions.specs.Checker.{keeps};
ghost use Rattle.answer.specs.Answer.{test_answer};
ghost use Rattle.judge.specs.Promise.{Asks};

use answer::{Question, Refusal, ask};

pub mod bulk; // bulk.rt: all judged clauses under one operator
pub mod guarantee; // guarantee.rt: the literals that an operator guarantees
mod under; // under.rt: what judging under one operator is given

// Whether the clauses keep a clause under an operator. Inlined, so that the stack of `kb_kept` stays within what its header states.
#[inline(always)]
fn test(image: &[u16], clauses: &[u16], clause: &[u16], operator: usize, marks: &mut [u8]) -> bool
    requires { Asks image.now clauses.now clause.now operator (length marks.old) }
    ensures { finding result ≡ keeps image.now clauses.now clause.now operator (length marks.old) }
{
    let atoms = task::atoms(image);
    let block = task::operator_block(image, operator);
    let mut fails = [0u8; 1];
    bulk::judge(clauses, clause, block, marks, atoms, &mut fails);
    !literal::flags::has(&fails, 0)
}

// Whether the clauses keep a clause under an operator: questions 1 to 9, then 8 and 9 for the clause alone, 19, 13.
pub fn kept(
    image: &[u16],
    clauses: &[u16],
    clause: &[u16],
    operator: u16,
    marks: &mut [u8],
) -> Result<bool, Refusal>
    ensures { test_answer result ≡ keeps image.now clauses.now clause.now operator (length marks.old) }
{
    reading::read(image, clauses)?;
    let atoms = task::atoms(image);
    clause::check_clause(clause, atoms)?;
    let number = literal::wide(operator);
    ask(Question::OperatorNumber, number < task::operators(image))?;
    let needed = propagation::marks::bytes(atoms);
    ask(Question::Buffers, needed <= marks.len())?;
    Ok(test(image, clauses, clause, number, marks))
}
