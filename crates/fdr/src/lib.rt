// States of a re-encoded task: setting to the initial state, steps, goal tests and list runs (questions 17 and 18 to 22).
#![tactic(auto)]

ghost use Rattle.std.specs.Prelude.{◌≡◌, true};
ghost use Rattle.definitions.specs.Answer.{outcome, becomes};
ghost use Rattle.definitions.specs.StepLists.{run_from};
ghost use Rattle.definitions.specs.Fdr.{fdr_all_true};
ghost use Rattle.definitions.specs.FdrStep.{fdr_fired, fdr_step, step_fdr, goal_fdr, start_fdr, run_fdr};
ghost use Rattle.answer.specs.Answer.{verdict_answer, test_answer, count_answer};
ghost use Rattle.answer.specs.Reader.{state_answer};
ghost use Rattle.fdr_image.specs.Reads.{fdr_of};
ghost use Rattle.fdr_image.specs.Walk.{block_parses, operator_in};
ghost use Rattle.fdr.specs.Change.{no_changes, applied, stepped};
ghost use Rattle.fdr.specs.Post.{fdr_reader, Standing, Applying, NotedFor};

use answer::{Question, Refusal, ask};

pub mod truth; // truth.rt: the truth of literals in a state
pub mod change; // change.rt: what a step makes of each variable

// Reads an image and a state: questions 17 and 18.
pub fn read_state(image: &[u16], state: &[u16]) -> Result<(), Refusal>
    ensures { verdict_answer result ≡ state_answer fdr_reader image.now state.now }
{
    fdr_image::read(image)?;
    ask(Question::State, fdr_image::is_state(image, state))
}

// Whether the precondition of a block holds in a state.
fn precondition_holds(block: &[u16], state: &[u16]) -> bool
    requires { block_parses block.now ≡ true }
    ensures { result ≡ fdr_all_true state.now (operator_in block.now).precondition }
{
    truth::all_true(state, fdr_image::rows::precondition(block))
}

// The rows of a block, done in a state, with changes that note nothing before it: questions 21 and 22. What is noted stays.
fn apply(
    image: &[u16],
    block: &[u16],
    state: &mut [u16],
    changes: &mut [usize],
) -> Result<(), Refusal>
    requires { Applying image.now block.now state.old changes.old }
    ensures { (outcome (verdict_answer result) state.new
        ≡ becomes state.old (applied (fdr_of image.now) state.old (fdr_fired state.old (operator_in block.now))))
        × NotedFor (operator_in block.now).rows changes.old changes.new }
{
    let free = change::note(block, state, changes);
    ask(Question::Conflict, free)?;
    let domains = fdr_image::domains(image);
    let there = change::are_nones_there(block, domains, changes);
    ask(Question::OmittedNone, there)?;
    change::write(block, domains, changes, state);
    Ok(())
}

// A step by the block of its operator, with changes that note nothing before and after: questions 20 to 22.
fn step_block(
    image: &[u16],
    block: &[u16],
    state: &mut [u16],
    changes: &mut [usize],
) -> Result<(), Refusal>
    requires { Applying image.now block.now state.old changes.old }
    ensures { (outcome (verdict_answer result) state.new ≡ becomes state.old (stepped (fdr_of image.now) state.old (operator_in block.now)))
        × (changes.new ≡ changes.old) }
{
    ask(Question::Precondition, precondition_holds(block, state))?;
    let applied = apply(image, block, state, changes);
    change::unnote(block, changes);
    applied
}

// A step in a state, with changes that note nothing before and after: questions 19 to 22.
fn step_noted(
    image: &[u16],
    state: &mut [u16],
    operator: u16,
    changes: &mut [usize],
) -> Result<(), Refusal>
    requires { Standing image.now state.old × (changes.old ≡ no_changes) }
    ensures { (outcome (verdict_answer result) state.new ≡ becomes state.old (fdr_step (fdr_of image.now) state.old operator)) × (changes.new ≡ changes.old) }
{
    let i = literal::wide(operator);
    ask(Question::OperatorNumber, i < fdr_image::operators(image))?;
    step_block(image, fdr_image::operator_block(image, i), state, changes)
}

// A step in a state: questions 19 to 22.
fn step_read(image: &[u16], state: &mut [u16], operator: u16) -> Result<(), Refusal>
    requires { Standing image.now state.old }
    ensures { outcome (verdict_answer result) state.new ≡ becomes state.old (fdr_step (fdr_of image.now) state.old operator) }
{
    let mut changes = [0usize; literal::MOST_ATOMS];
    step_noted(image, state, operator, &mut changes)
}

// A step, done in the lent state.
pub fn step(image: &[u16], state: &mut [u16], operator: u16) -> Result<(), Refusal>
    ensures { outcome (verdict_answer result) state.new ≡ becomes state.old (step_fdr image.now state.old operator) }
{
    read_state(image, state)?;
    step_read(image, state, operator)
}

// The steps of a list in a state, with changes that note nothing: questions 19 to 22 of each operator of the list.
fn run_noted(
    image: &[u16],
    state: &mut [u16],
    list: &[u16],
    changes: &mut [usize],
) -> Result<usize, Refusal>
    requires { Standing image.now state.old × (changes.old ≡ no_changes) }
    ensures { outcome (count_answer result) state.new ≡ run_from (fdr_step (fdr_of image.now)) state.old 0 list.now }
{
    for (steps, operator) in list.iter().enumerate() {
        step_noted(image, state, *operator, changes).map_err(|f| f.after(steps))?;
    }
    Ok(list.len())
}

// The steps of a list in a state: questions 19 to 22 of each operator of the list.
fn run_read(image: &[u16], state: &mut [u16], list: &[u16]) -> Result<usize, Refusal>
    requires { Standing image.now state.old }
    ensures { outcome (count_answer result) state.new ≡ run_from (fdr_step (fdr_of image.now)) state.old 0 list.now }
{
    let mut changes = [0usize; literal::MOST_ATOMS];
    run_noted(image, state, list, &mut changes)
}

// A list run, done in the lent state. A refused one keeps the steps that it took.
pub fn run(image: &[u16], state: &mut [u16], list: &[u16]) -> Result<usize, Refusal>
    ensures { outcome (count_answer result) state.new ≡ run_fdr image.now state.old list.now }
{
    read_state(image, state)?;
    run_read(image, state, list)
}

// Whether the goal is met in a state.
pub fn goal_met(image: &[u16], state: &[u16]) -> Result<bool, Refusal>
    ensures { test_answer result ≡ goal_fdr image.now state.now }
{
    read_state(image, state)?;
    Ok(truth::all_true(state, fdr_image::goal(image)))
}

// Sets a state to the initial one.
pub fn set_initial(image: &[u16], state: &mut [u16]) -> Result<(), Refusal>
    ensures { outcome (verdict_answer result) state.new ≡ becomes state.old (start_fdr image.now state.old) }
{
    fdr_image::read(image)?;
    ask(Question::State, state.len() == fdr_image::variables(image))?;
    writing::write(fdr_image::initial(image), state, 0);
    Ok(())
}
