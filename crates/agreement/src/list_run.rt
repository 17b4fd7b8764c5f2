// List runs in the task and in the re-encoding, and what they leave: the states after the single steps before the first refused one.
ghost use Rattle.std.specs.Prelude.{◌≡◌, eqb};
ghost use Rattle.definitions.specs.Step.{run_task};
ghost use Rattle.definitions.specs.FdrStep.{run_fdr};
ghost use Rattle.agreement.specs.Same.{same_answer, Both};
ghost use Rattle.agreement.specs.Compared.{left_by_steps, runs_from_start, Walked, Small, SameLengths};

// The list run in both states: whether the answers are the same.
fn run_both(
    image: &[u16],
    encoded: &[u16],
    list: &[u16],
    state: &mut [u8],
    values: &mut [u16],
) -> bool
    ensures { Both (same_answer eqb) (run_task image.now state.old list.now) (run_fdr encoded.now values.old list.now) state.new values.new result }
{
    let first = state::run(image, state, list);
    let second = fdr::run(encoded, values, list);
    crate::same::counts(first, second)
}

// Single steps in both states, up to the first that the task refuses.
fn walk_both(image: &[u16], encoded: &[u16], list: &[u16], state: &mut [u8], values: &mut [u16])
    ensures { Walked image.now encoded.now list.now state.old values.old state.new values.new }
{
    for operator in list {
        if state::step(image, state, *operator).is_err() {
            return;
        }
        let _ = fdr::step(encoded, values, *operator);
    }
}

// Whether single steps in two other states leave these.
fn leaves_in(
    image: &[u16],
    encoded: &[u16],
    list: &[u16],
    state: &[u8],
    values: &[u16],
    other: &mut [u8],
    others: &mut [u16],
) -> bool
    requires { SameLengths state.now values.now other.old others.old }
    ensures { result ≡ left_by_steps image.now encoded.now list.now state.now values.now }
{
    if !crate::states::set_both(image, encoded, other, others) {
        return false;
    }
    walk_both(image, encoded, list, other, others);
    *other == *state && *others == *values
}

// Whether single steps, from the initial states, leave these.
fn leaves(image: &[u16], encoded: &[u16], list: &[u16], state: &[u8], values: &[u16]) -> bool
    requires { Small state.now values.now }
    ensures { result ≡ left_by_steps image.now encoded.now list.now state.now values.now }
{
    let mut other = literal::room::state();
    let mut others = literal::room::values();
    let atoms = state.len();
    let variables = values.len();
    leaves_in(
        image,
        encoded,
        list,
        state,
        values,
        &mut other[..atoms],
        &mut others[..variables],
    )
}

// From the initial states: whether the list runs answer the same, and leave the same states, those of the single steps.
pub fn from_start(
    image: &[u16],
    encoded: &[u16],
    clauses: &[u16],
    list: &[u16],
    state: &mut [u8],
    values: &mut [u16],
) -> bool
    requires { Small state.old values.old }
    ensures { result ≡ runs_from_start image.now encoded.now clauses.now list.now state.old values.old }
{
    crate::states::set_both(image, encoded, state, values)
        && run_both(image, encoded, list, state, values)
        && crate::states::same_states(image, encoded, clauses, state, values)
        && leaves(image, encoded, list, state, values)
}
