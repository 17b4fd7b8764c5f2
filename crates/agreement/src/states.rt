// A state of the task and a finite-domain state: set to the initial ones, and compared by the public calls.
ghost use Rattle.std.specs.Prelude.{◌≡◌, ◌≤◌, length};
ghost use Rattle.definitions.specs.Lists.{all};
ghost use Rattle.definitions.specs.Answer.{becomes};
ghost use Rattle.definitions.specs.Literal.{most_atoms, holds_in};
ghost use Rattle.definitions.specs.Step.{goal_task, start_task};
ghost use Rattle.definitions.specs.FdrStep.{goal_fdr, start_fdr};
ghost use Rattle.definitions.specs.Coding.{to_atoms_call, from_atoms_call};
ghost use Rattle.clause.specs.Rows.{clauses_of};
ghost use Rattle.agreement.specs.Same.{both_found, same_unit, same_bool, is_found, Both};
ghost use Rattle.agreement.specs.Compared.{same_states, Small};

// Sets both states to the initial ones: whether neither call was refused.
pub fn set_both(image: &[u16], encoded: &[u16], state: &mut [u8], values: &mut [u16]) -> bool
    ensures { Both (both_found same_unit) (becomes state.old (start_task image.now state.old))
        (becomes values.old (start_fdr encoded.now values.old)) state.new values.new result }
{
    let first = state::set_initial(image, state);
    let second = fdr::set_initial(encoded, values);
    crate::same::both_fine(first, second)
}

// Whether every clause holds in a state.
fn all_hold(clauses: &[u16], state: &[u8]) -> bool
    ensures { result ≡ all (holds_in state.now) (clauses_of clauses.now) }
{
    checker::check_true(clauses, state).is_ok()
}

// Whether the goal tests say the same.
fn same_goals(image: &[u16], encoded: &[u16], state: &[u8], values: &[u16]) -> bool
    ensures { result ≡ both_found same_bool (goal_task image.now state.now) (goal_fdr encoded.now values.now) }
{
    let first = state::goal_met(image, state);
    let second = fdr::goal_met(encoded, values);
    crate::same::tests(first, second)
}

// Whether the task's state, coded into a target, gives the values.
fn codes_in(encoded: &[u16], state: &[u8], values: &[u16], target: &mut [u16]) -> bool
    requires { length target.old ≡ length values.now }
    ensures { result ≡ is_found (from_atoms_call encoded.now state.now (length values.now)) values.now }
{
    coding::encode(encoded, state, target).is_ok() && *target == *values
}

// Whether the task's state, coded, gives the values.
fn codes(encoded: &[u16], state: &[u8], values: &[u16]) -> bool
    requires { length values.now ≤ most_atoms }
    ensures { result ≡ is_found (from_atoms_call encoded.now state.now (length values.now)) values.now }
{
    let mut room = literal::room::values();
    let count = values.len();
    codes_in(encoded, state, values, &mut room[..count])
}

// Whether the values, coded back into a target, give the task's state.
fn decodes_in(encoded: &[u16], values: &[u16], state: &[u8], target: &mut [u8]) -> bool
    requires { length target.old ≡ length state.now }
    ensures { result ≡ is_found (to_atoms_call encoded.now values.now (length state.now)) state.now }
{
    coding::decode(encoded, values, target).is_ok() && *target == *state
}

// Whether the values, coded back, give the task's state.
fn decodes(encoded: &[u16], values: &[u16], state: &[u8]) -> bool
    requires { length state.now ≤ most_atoms }
    ensures { result ≡ is_found (to_atoms_call encoded.now values.now (length state.now)) state.now }
{
    let mut room = literal::room::state();
    let count = state.len();
    decodes_in(encoded, values, state, &mut room[..count])
}

// Whether the two states are the same, by the calls: every clause holds, the goal tests say the same, each is the other's code.
pub fn same_states(
    image: &[u16],
    encoded: &[u16],
    clauses: &[u16],
    state: &[u8],
    values: &[u16],
) -> bool
    requires { Small state.now values.now }
    ensures { result ≡ same_states image.now encoded.now clauses.now state.now values.now }
{
    all_hold(clauses, state)
        && same_goals(image, encoded, state, values)
        && codes(encoded, state, values)
        && decodes(encoded, values, state)
}
