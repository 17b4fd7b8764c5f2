// States of a task: setting to the initial state, steps, goal tests and list runs (questions 1 to 7 and 18 to 20).
#![tactic(auto)]

ghost use Rattle.std.specs.Prelude.{◌≡◌, true, ◌*◌, length, replicate};
ghost use Rattle.definitions.specs.Answer.{verdict, outcome, becomes};
ghost use Rattle.definitions.specs.Literal.{all_true};
ghost use Rattle.definitions.specs.Image.{initial_state};
ghost use Rattle.definitions.specs.StepLists.{run_from};
ghost use Rattle.definitions.specs.Step.{step, step_task, goal_task, start_task, run_task};
ghost use Rattle.answer.specs.Answer.{verdict_answer, test_answer, count_answer};
ghost use Rattle.answer.specs.Reader.{state_answer};
ghost use Rattle.task.specs.Reads.{task_of, Reads};
ghost use Rattle.task.specs.Walk.{block_parses, operator_in};
ghost use Rattle.state.specs.Flags.{set_true};
ghost use Rattle.state.specs.Post.{task_reader, Standing, Applies, applied};

use answer::{Question, Refusal, ask};

mod effect; // effect.rt: the effects of one operator in a state

// Reads an image and a state: questions 1 to 7 and 18.
pub fn read_state(image: &[u16], state: &[u8]) -> Result<(), Refusal>
    ensures { verdict_answer result ≡ state_answer task_reader image.now state.now }
{
    task::read(image)?;
    let is_state = literal::is_state(state, task::atoms(image));
    ask(Question::State, is_state)
}

// Whether the precondition of a block holds in a state.
fn precondition_holds(block: &[u16], state: &[u8]) -> bool
    requires { block_parses block.now ≡ true }
    ensures { result ≡ all_true state.now (operator_in block.now).precondition }
{
    literal::all_true(state, task::rows::precondition(block))
}

// Whether an operator can be applied in a task's state: questions 19 and 20.
fn check_operator(image: &[u16], state: &[u8], operator: usize) -> Result<(), Refusal>
    requires { Reads image.now }
    ensures { verdict_answer result ≡ verdict (step (task_of image.now) state.now operator) }
{
    if task::operators(image) <= operator {
        return Err(Question::OperatorNumber.into());
    }
    let block = task::operator_block(image, operator);
    ask(Question::Precondition, precondition_holds(block, state))
}

// Whether a step can be made: its questions, and nothing is changed.
pub fn check_step(image: &[u16], state: &[u8], operator: u16) -> Result<(), Refusal>
    ensures { verdict_answer result ≡ verdict (step_task image.now state.now operator) }
{
    read_state(image, state)?;
    check_operator(image, state, literal::wide(operator))
}

// A step by the block of its operator, with flags that are all zero before and after: question 20.
fn step_block(block: &[u16], state: &mut [u8], flags: &mut [u8]) -> Result<(), Refusal>
    requires { Applies block.now state.old flags.old }
    ensures { (outcome (verdict_answer result) state.new
        ≡ becomes state.old (applied state.old (operator_in block.now)))
        × (flags.new ≡ flags.old) }
{
    let holds = precondition_holds(block, state);
    ask(Question::Precondition, holds)?;
    effect::apply(block, state, flags);
    Ok(())
}

// A step in a task's state, with flags for its literals that are all zero before and after: questions 19 and 20.
fn step_flagged(
    image: &[u16],
    state: &mut [u8],
    operator: usize,
    flags: &mut [u8],
) -> Result<(), Refusal>
    requires { Standing image.now state.old × (flags.old ≡ replicate (2 * (task_of image.now).atoms) 0) }
    ensures { (outcome (verdict_answer result) state.new
        ≡ becomes state.old (step (task_of image.now) state.old operator))
        × (flags.new ≡ flags.old) }
{
    if task::operators(image) <= operator {
        return Err(Question::OperatorNumber.into());
    }
    step_block(task::operator_block(image, operator), state, flags)
}

// A step in a task's state: questions 19 and 20.
pub fn step_read(image: &[u16], state: &mut [u8], operator: u16) -> Result<(), Refusal>
    requires { Standing image.now state.old }
    ensures { outcome (verdict_answer result) state.new
        ≡ becomes state.old (step (task_of image.now) state.old operator) }
{
    let mut flags = [0u8; literal::MOST_LITERALS];
    let count = 2 * task::atoms(image);
    step_flagged(image, state, literal::wide(operator), &mut flags[..count])
}

// A step, done in the lent state.
pub fn step(image: &[u16], state: &mut [u8], operator: u16) -> Result<(), Refusal>
    ensures { outcome (verdict_answer result) state.new
        ≡ becomes state.old (step_task image.now state.old operator) }
{
    read_state(image, state)?;
    step_read(image, state, operator)
}

// The steps of a list in a task's state, with flags for its literals that are all zero: questions 19 and 20 of each operator of the list.
fn run_flagged(
    image: &[u16],
    state: &mut [u8],
    list: &[u16],
    flags: &mut [u8],
) -> Result<usize, Refusal>
    requires { Standing image.now state.old × (flags.old ≡ replicate (2 * (task_of image.now).atoms) 0) }
    ensures { outcome (count_answer result) state.new
        ≡ run_from (step (task_of image.now)) state.old 0 list.now }
{
    for (steps, operator) in list.iter().enumerate() {
        step_flagged(image, state, literal::wide(*operator), flags).map_err(|f| f.after(steps))?;
    }
    Ok(list.len())
}

// The steps of a list in a task's state: questions 19 and 20 of each operator of the list.
fn run_read(image: &[u16], state: &mut [u8], list: &[u16]) -> Result<usize, Refusal>
    requires { Standing image.now state.old }
    ensures { outcome (count_answer result) state.new
        ≡ run_from (step (task_of image.now)) state.old 0 list.now }
{
    let mut flags = [0u8; literal::MOST_LITERALS];
    let count = 2 * task::atoms(image);
    run_flagged(image, state, list, &mut flags[..count])
}

// A list run, done in the lent state. A refused one keeps the steps that it took.
pub fn run(image: &[u16], state: &mut [u8], list: &[u16]) -> Result<usize, Refusal>
    ensures { outcome (count_answer result) state.new ≡ run_task image.now state.old list.now }
{
    read_state(image, state)?;
    run_read(image, state, list)
}

// Whether the goal is met in a state.
pub fn goal_met(image: &[u16], state: &[u8]) -> Result<bool, Refusal>
    ensures { test_answer result ≡ goal_task image.now state.now }
{
    read_state(image, state)?;
    Ok(literal::all_true(state, task::goal(image)))
}

// Makes the atoms of a list true.
fn set_true(state: &mut [u8], atoms: &[u16])
    ensures { state.new ≡ set_true atoms.now state.old }
{
    for atom in atoms {
        literal::flags::mark_if(true, state, literal::wide(*atom));
    }
}

// Writes the initial state of a task into a state of its length.
pub fn write_initial(image: &[u16], state: &mut [u8])
    requires { Reads image.now × (length state.old ≡ (task_of image.now).atoms) }
    ensures { state.new ≡ initial_state (task_of image.now) }
{
    literal::flags::clear(state);
    set_true(state, task::initial(image));
}

// Sets a state to the initial one.
pub fn set_initial(image: &[u16], state: &mut [u8]) -> Result<(), Refusal>
    ensures { outcome (verdict_answer result) state.new
        ≡ becomes state.old (start_task image.now state.old) }
{
    task::read(image)?;
    let atoms = task::atoms(image);
    ask(Question::State, state.len() == atoms)?;
    write_initial(image, state);
    Ok(())
}
