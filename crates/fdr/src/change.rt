// The change of one step: for each variable a number that says what becomes of it.
// Rows fire by the state before the step, so they are noted first and the state is written last. Only numbers of the variables
// that the operator's rows name are touched, so a step takes the time of its rows, however many variables there are.
ghost use Rattle.std.specs.Prelude.{◌≡◌, ◌&&◌, ◌+◌, ◌<◌, eqb, length, get_or};
ghost use Rattle.definitions.specs.Literal.{most_atoms};
ghost use Rattle.definitions.specs.Fdr.{no_domain, fdr_all_true};
ghost use Rattle.definitions.specs.FdrImage.{domains_in, literals_in};
ghost use Rattle.definitions.specs.FdrStep.{fdr_fired};
ghost use Rattle.fdr_image.specs.Walk.{kind_of, operator_in};
ghost use Rattle.fdr.specs.Change.{noted, note_set, note_clear, note_kind, note_if, note_fired, become, nones_in, written, unnoted};
ghost use Rattle.fdr.specs.Post.{LowBlock, Changed, Changes, Writes, NotedAt, NotedFor};

use fdr_image::block::{self, Kind};
use fdr_image::domain;
use fdr_image::rows::{Row, Rows};

// What becomes of a variable: it stays, it becomes none, or it becomes the value x, noted as x more than `FIRST_VALUE`.
const STAYS: usize = 0;

const TO_NONE: usize = 1;

const FIRST_VALUE: usize = 2;

// Notes a set, which beats a clear noted before it. False if the variable is set to another value.
fn note_set(changes: &mut [usize], variable: usize, value: usize) -> bool
    requires { (variable < length changes.old) × (value < 65536) }
    ensures { (noted result changes.new ≡ note_set variable value changes.old)
        × NotedAt variable changes.old changes.new }
{
    let change = changes[variable];
    let set = value + FIRST_VALUE;
    if change < FIRST_VALUE {
        changes[variable] = set;
        return true;
    }
    change == set
}

// Notes a clear of the present value, if nothing is noted for the variable: a set noted before it stays.
fn note_clear(changes: &mut [usize], state: &[u16], variable: usize, value: usize)
    requires { variable < length changes.old }
    ensures { (changes.new ≡ note_clear state.now variable value changes.old)
        × NotedAt variable changes.old changes.new }
{
    if changes[variable] == STAYS && super::truth::value(state, variable) == value {
        changes[variable] = TO_NONE;
    }
}

fn note_kind(changes: &mut [usize], state: &[u16], word: u16, variable: usize, value: usize) -> bool
    requires { (variable < length changes.old) × (value < 65536) }
    ensures { (noted result changes.new ≡ note_kind state.now (kind_of word) variable value changes.old)
        × NotedAt variable changes.old changes.new }
{
    match block::kind_of(word) {
        Some(Kind::Set) => note_set(changes, variable, value),
        Some(Kind::Clear) => {
            note_clear(changes, state, variable, value);
            true
        }
        None => true,
    }
}

// Notes a row, if it fires. False at a conflict with what was noted before it.
fn note_row(changes: &mut [usize], state: &[u16], row: Row) -> bool
    requires { row.variable < length changes.old }
    ensures { (noted result changes.new ≡ note_if (fdr_all_true state.now (literals_in row.entry.conditions.now))
        (note_kind state.now (kind_of row.entry.kind) row.entry.variable row.entry.value changes.old) changes.old)
        × NotedAt row.entry.variable changes.old changes.new }
{
    if !super::truth::all_true(state, row.conditions) {
        return true;
    }
    let value = literal::wide(row.value);
    note_kind(changes, state, row.kind, row.variable, value)
}

// Notes the rows that fire in a state. False at a conflict.
pub fn note(block: &[u16], state: &[u16], changes: &mut [usize]) -> bool
    requires { LowBlock most_atoms block.now × (length changes.old ≡ most_atoms) }
    ensures { (noted result changes.new ≡ note_fired state.now
        (fdr_fired state.now (operator_in block.now)) changes.old)
        × NotedFor (operator_in block.now).rows changes.old changes.new }
{
    for row in Rows::of(block) {
        if !note_row(changes, state, row) {
            return false;
        }
    }
    true
}

// Whether a variable becomes none, which is omitted.
fn is_omitted(domains: &[u16], change: usize, variable: usize) -> bool
    requires { variable < length (domains_in domains.now) }
    ensures { result ≡ (eqb change 1 && eqb (get_or (domains_in domains.now) variable no_domain).none 0) }
{
    change == TO_NONE && domain::none_flag(domains, variable) == 0
}

// Whether no variable that a row names becomes an omitted none.
pub fn are_nones_there(block: &[u16], domains: &[u16], changes: &[usize]) -> bool
    requires { LowBlock (length (domains_in domains.now)) block.now × Changes (domains_in domains.now) changes.now }
    ensures { result ≡ nones_in (domains_in domains.now) changes.now (operator_in block.now).rows }
{
    for row in Rows::of(block) {
        let change = changes[row.variable];
        if is_omitted(domains, change, row.variable) {
            return false;
        }
    }
    true
}

fn new_value(domains: &[u16], change: usize, variable: usize, old: u16) -> u16
    requires { Changed (domains_in domains.now) variable change }
    ensures { result ≡ become (get_or (domains_in domains.now) variable no_domain) change old }
{
    match change {
        STAYS => old,
        TO_NONE => (domain::size(domains, variable) - 1) as u16,
        _ => (change - FIRST_VALUE) as u16,
    }
}

// Writes the change of the variables that the rows name into the state. A variable named twice is written twice, with the same value.
pub fn write(block: &[u16], domains: &[u16], changes: &[usize], state: &mut [u16])
    requires { Writes (domains_in domains.now) block.now changes.now state.old }
    ensures { state.new ≡ written (domains_in domains.now) changes.now
        (operator_in block.now).rows state.old }
{
    for row in Rows::of(block) {
        let variable = row.variable;
        state[variable] = new_value(domains, changes[variable], variable, state[variable]);
    }
}

// Clears what is noted for the variables that the rows name.
pub fn unnote(block: &[u16], changes: &mut [usize])
    requires { LowBlock most_atoms block.now × (length changes.old ≡ most_atoms) }
    ensures { changes.new ≡ unnoted (operator_in block.now).rows changes.old }
{
    for row in Rows::of(block) {
        changes[row.variable] = STAYS;
    }
}
