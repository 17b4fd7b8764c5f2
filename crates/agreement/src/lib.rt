// Demand 3 as a call: a task and its re-encoding by an accepted clause set, compared along a list of operator numbers by the
// public calls alone.
#![tactic(auto)]

ghost use Rattle.std.specs.Prelude.{◌≡◌, length};
ghost use Rattle.definitions.specs.FdrImage.{most_fdr_image};
ghost use Rattle.answer.specs.Answer.{test_answer};
ghost use Rattle.checker.specs.Accepts.{Accepts};
ghost use Rattle.agreement.specs.Compared.{list_same, images_same, comparison, Agreed, Images, Small};

use answer::Refusal;

mod same; // same.rt: comparisons of answers
mod states; // states.rt: a state of the task and a finite-domain state
mod steps; // steps.rt: a step for every number of a list
mod list_run; // list_run.rt: the list runs

// Room for a re-encoded image: the longest has as many words.
fn image_room() -> [u16; fdr_image::MOST_WORDS]
    ensures { length result ≡ most_fdr_image }
{
    [0u16; fdr_image::MOST_WORDS]
}

// The list by steps, and as a list run.
fn same_list(
    image: &[u16],
    encoded: &[u16],
    clauses: &[u16],
    list: &[u16],
    state: &mut [u8],
    values: &mut [u16],
) -> bool
    requires { Small state.old values.old }
    ensures { result ≡ list_same image.now encoded.now clauses.now list.now state.old values.old }
{
    steps::from_start(image, encoded, clauses, list, state, values)
        && list_run::from_start(image, encoded, clauses, list, state, values)
}

// The list in local states, of as many atoms and variables as the two images have.
fn compare_images(image: &[u16], encoded: &[u16], clauses: &[u16], list: &[u16]) -> bool
    requires { Images image.now encoded.now }
    ensures { result ≡ images_same image.now encoded.now clauses.now list.now }
{
    let atoms = task::atoms(image);
    let variables = fdr_image::variables(encoded);
    let mut state = literal::room::state();
    let mut values = literal::room::values();
    same_list(
        image,
        encoded,
        clauses,
        list,
        &mut state[..atoms],
        &mut values[..variables],
    )
}

// The comparison for an accepted set: the re-encoding, then the list.
fn compare_accepted(
    image: &[u16],
    clauses: &[u16],
    list: &[u16],
    marks: &mut [u8],
    room: &mut [u16],
) -> Result<bool, Refusal>
    requires { Accepts image.now clauses.now (length marks.old) × (length room.old ≡ most_fdr_image) }
    ensures { test_answer result ≡ comparison image.now clauses.now (length marks.old) list.now }
{
    match reencoding::reencode(image, clauses, marks, room) {
        Ok(words) => Ok(compare_images(image, &room[..words], clauses, list)),
        Err(_) => Ok(false),
    }
}

// Whether task and re-encoding agree along a list, for a set that is accepted; else the checker's refusal.
pub fn agree(
    image: &[u16],
    clauses: &[u16],
    list: &[u16],
    marks: &mut [u8],
) -> Result<bool, Refusal>
    ensures { Agreed image.now clauses.now (length marks.old) list.now result }
{
    checker::accept(image, clauses, marks)?;
    let mut room = image_room();
    compare_accepted(image, clauses, list, marks, &mut room[..])
}
