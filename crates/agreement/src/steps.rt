// A step for every number of a list, in the task and in the re-encoding.
ghost use Rattle.std.specs.Prelude.{◌≡◌};
ghost use Rattle.definitions.specs.Answer.{becomes};
ghost use Rattle.definitions.specs.Step.{step_task};
ghost use Rattle.definitions.specs.FdrStep.{step_fdr};
ghost use Rattle.agreement.specs.Same.{same_answer, same_unit, Both};
ghost use Rattle.agreement.specs.Compared.{steps_same, steps_from_start, Small};

// A step in both states: whether the answers are the same.
fn step_both(
    image: &[u16],
    encoded: &[u16],
    operator: u16,
    state: &mut [u8],
    values: &mut [u16],
) -> bool
    ensures { Both (same_answer same_unit) (becomes state.old (step_task image.now state.old operator))
        (becomes values.old (step_fdr encoded.now values.old operator)) state.new values.new result }
{
    let first = state::step(image, state, operator);
    let second = fdr::step(encoded, values, operator);
    crate::same::verdicts(first, second)
}

// A step for every number of the list in both states: whether answers and states are the same each time.
fn same_steps(
    image: &[u16],
    encoded: &[u16],
    clauses: &[u16],
    list: &[u16],
    state: &mut [u8],
    values: &mut [u16],
) -> bool
    requires { Small state.old values.old }
    ensures { result ≡ steps_same image.now encoded.now clauses.now list.now state.old values.old }
{
    for operator in list {
        if !step_both(image, encoded, *operator, state, values)
            || !crate::states::same_states(image, encoded, clauses, state, values)
        {
            return false;
        }
    }
    true
}

// From the initial states: whether they are the same, and stay so by the steps of the list.
pub fn from_start(
    image: &[u16],
    encoded: &[u16],
    clauses: &[u16],
    list: &[u16],
    state: &mut [u8],
    values: &mut [u16],
) -> bool
    requires { Small state.old values.old }
    ensures { result ≡ steps_from_start image.now encoded.now clauses.now list.now state.old values.old }
{
    crate::states::set_both(image, encoded, state, values)
        && crate::states::same_states(image, encoded, clauses, state, values)
        && same_steps(image, encoded, clauses, list, state, values)
}
