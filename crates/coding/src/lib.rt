// Coding of states: from a task's state to a finite-domain state and back (questions 17, 18 and, from atoms, 23).
#![tactic(auto)]

ghost use Rattle.std.specs.Prelude.{◌≡◌, length};
ghost use Rattle.definitions.specs.Answer.{outcome, becomes};
ghost use Rattle.definitions.specs.Coding.{from_atoms, from_atoms_call, to_atoms_call};
ghost use Rattle.answer.specs.Answer.{verdict_answer};
ghost use Rattle.fdr_image.specs.Reads.{fdr_of};
ghost use Rattle.coding.specs.Post.{Encodes};

use answer::{Question, Refusal, ask};

mod found; // found.rt: the values of the true atoms
mod atom; // atom.rt: the truth of atoms in a finite-domain state

// Codes a task's state from atoms: question 23. The target is written only where no variable is refused.
fn encode_read(image: &[u16], state: &[u8], target: &mut [u16]) -> Result<(), Refusal>
    requires { Encodes image.now state.now (length target.old) }
    ensures { outcome (verdict_answer result) target.new ≡ becomes target.old (from_atoms (fdr_of image.now) state.now) }
{
    let mut values = [0usize; literal::MOST_ATOMS];
    ask(Question::NotCodable, found::find(image, state, &mut values))?;
    ask(Question::NotCodable, found::are_codable(image, &values))?;
    found::write(image, &values, target);
    Ok(())
}

// Codes a task's state from atoms: the finite-domain state goes to the target.
pub fn encode(image: &[u16], state: &[u8], target: &mut [u16]) -> Result<(), Refusal>
    ensures { outcome (verdict_answer result) target.new ≡ becomes target.old (from_atoms_call image.now state.now (length target.old)) }
{
    fdr_image::read(image)?;
    ask(
        Question::State,
        literal::is_state(state, fdr_image::atoms(image)),
    )?;
    ask(Question::State, target.len() == fdr_image::variables(image))?;
    encode_read(image, state, target)
}

// Codes a finite-domain state to atoms: the task's state goes to the target.
pub fn decode(image: &[u16], state: &[u16], target: &mut [u8]) -> Result<(), Refusal>
    ensures { outcome (verdict_answer result) target.new ≡ becomes target.old (to_atoms_call image.now state.now (length target.old)) }
{
    fdr_image::read(image)?;
    ask(Question::State, fdr_image::is_state(image, state))?;
    ask(Question::State, target.len() == fdr_image::atoms(image))?;
    atom::write(image, state, target);
    Ok(())
}
