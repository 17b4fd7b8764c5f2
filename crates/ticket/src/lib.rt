// Asking first and committing later (document 02 §8): a ticket says that a step can be made; its commit makes the step, if nothing was
// committed since. A state is lent together with its commit count.
#![tactic(auto)]

ghost use Rattle.std.specs.Prelude.{◌≡◌};
ghost use Rattle.definitions.specs.CallLists.{outcome_of_call, call_becomes};
ghost use Rattle.definitions.specs.Ticket.{ask_task, ticket_valid, commit, commit_task};
ghost use Rattle.answer.specs.Answer.{verdict_answer};
ghost use Rattle.state.specs.Post.{Standing};
ghost use Rattle.task.specs.Reads.{task_of};
ghost use Rattle.ticket.specs.Answer.{counted, ticket_of, asked_answer};

use answer::{Question, Refusal};

// The count at which nothing more is committed.
pub const LAST_COUNT: u16 = 65535;

// A commit count and an operator.
#[derive(Clone, Copy, Debug, PartialEq, Eq)]
pub struct Ticket {
    pub count: u16,
    pub operator: u16,
}

// Asks for a step in a state with its commit count: questions 1 to 7 and 18 to 20. Nothing is changed.
pub fn ask(image: &[u16], state: &[u8], count: u16, operator: u16) -> Result<Ticket, Refusal>
    ensures { asked_answer result ≡ ask_task image.now (counted state.now count) operator }
{
    state::check_step(image, state, operator)?;
    Ok(Ticket { count, operator })
}

// Whether `given`, the count of a ticket, is the state's, and something can be committed at it: question 28.
fn is_valid(given: u16, count: u16) -> bool
    ensures { result ≡ ticket_valid given count }
{
    given == count && given != LAST_COUNT
}

// Commits a ticket in a task's state: questions 28, 19 and 20.
fn commit_read(
    image: &[u16],
    state: &mut [u8],
    count: &mut u16,
    ticket: Ticket,
) -> Result<(), Refusal>
    requires { Standing image.now state.old }
    ensures { outcome_of_call (verdict_answer result) (counted state.new count.new)
        ≡ call_becomes (counted state.old count.old)
        (commit (task_of image.now) (counted state.old count.old) (ticket_of ticket)) }
{
    answer::ask(Question::Ticket, is_valid(ticket.count, *count))?;
    state::step_read(image, state, ticket.operator)?;
    *count += 1;
    Ok(())
}

// Commits a ticket: makes its step in the lent state, and adds one to the lent count. Questions 1 to 7, 18, 28, 19 and 20.
pub fn commit(
    image: &[u16],
    state: &mut [u8],
    count: &mut u16,
    ticket: Ticket,
) -> Result<(), Refusal>
    ensures { outcome_of_call (verdict_answer result) (counted state.new count.new)
        ≡ call_becomes (counted state.old count.old)
        (commit_task image.now (counted state.old count.old) (ticket_of ticket)) }
{
    state::read_state(image, state)?;
    commit_read(image, state, count, ticket)
}
