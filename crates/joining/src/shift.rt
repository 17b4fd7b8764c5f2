// Literals, rows and operators of a task whose atoms follow those of another, as words of the joined image. Each function gives the
// place after the words that it wrote.
ghost use Rattle.std.specs.Prelude.{◌++◌, ◌+◌, ◌-◌, ◌*◌, ◌≤◌, length};
ghost use Rattle.definitions.specs.Literal.{most_atoms};
ghost use Rattle.definitions.specs.TaskWords.{counted_literals, row_words};
ghost use Rattle.definitions.specs.Join.{shifted, shifted_row};
ghost use Rattle.task.specs.Walk.{row, operator_in};
ghost use Rattle.task.specs.Rows.{rows_left};
ghost use Rattle.task.specs.Reads.{task_of, Reads};
ghost use Rattle.task.specs.Post.{RowsOver, OperatorOver};
ghost use Rattle.writing.specs.Writing.{Wrote};
ghost use Rattle.joining.specs.Behind.{rows_behind, operator_behind, operators_behind, NumbersGiven, CountedGiven, RowGiven};

use task::rows::{Row, Rows, precondition};

// Writes numbers, each higher by `by`.
fn numbers(list: &[u16], by: u16, target: &mut [u16], at: usize) -> usize
    requires { (NumbersGiven by list.now) × (at + length list.now ≤ length target.old) }
    ensures { Wrote target.old at (shifted by list.now) target.new result }
{
    let mut to = at;
    for x in list {
        target[to] = by + *x;
        to += 1;
    }
    to
}

// Writes a list, then another of numbers that are each higher by `by`.
pub fn lists(first: &[u16], second: &[u16], by: u16, target: &mut [u16], at: usize) -> usize
    requires { (NumbersGiven by second.now) × (at + length (first.now ++ shifted by second.now) ≤ length target.old) }
    ensures { Wrote target.old at (first.now ++ shifted by second.now) target.new result }
{
    let to = writing::words(first, target, at);
    numbers(second, by, target, to)
}

// Writes the number of literals, then the literals, behind `before` atoms.
fn counted(list: &[u16], before: u16, target: &mut [u16], at: usize) -> usize
    requires { CountedGiven before list.now target.old at }
    ensures { Wrote target.old at (counted_literals (shifted (2 * before) list.now)) target.new result }
{
    target[at] = list.len() as u16;
    numbers(list, 2 * before, target, at + 1)
}

// Writes a row: its effect and its conditions, behind `before` atoms.
fn row(effect: u16, conditions: &[u16], before: u16, target: &mut [u16], at: usize) -> usize
    requires { RowGiven before effect conditions.now target.old at }
    ensures { Wrote target.old at (row_words (shifted_row before (row effect conditions.now))) target.new result }
{
    target[at] = 2 * before + effect;
    counted(conditions, before, target, at + 1)
}

// Writes rows, behind `before` atoms.
fn rows(list: Rows, before: u16, target: &mut [u16], at: usize) -> usize
    requires { (before ≤ most_atoms) × (RowsOver (most_atoms - before) (rows_left list))
        × (at + length (rows_behind before (rows_left list)) ≤ length target.old) }
    ensures { Wrote target.old at (rows_behind before (rows_left list.entry)) target.new result }
{
    let mut to = at;
    for Row { effect, conditions } in list {
        to = row(effect, conditions, before, target, to);
    }
    to
}

// Writes the operator of a block, behind `before` atoms.
fn operator(block: &[u16], before: u16, target: &mut [u16], at: usize) -> usize
    requires { (before ≤ most_atoms) × (OperatorOver (most_atoms - before) block.now)
        × (at + length (operator_behind before (operator_in block.now)) ≤ length target.old) }
    ensures { Wrote target.old at (operator_behind before (operator_in block.now)) target.new result }
{
    let list = Rows::of(block);
    let to = counted(precondition(block), before, target, at);
    target[to] = list.len() as u16;
    rows(list, before, target, to + 1)
}

// Writes the operators of a task, behind `before` atoms.
pub fn operators(image: &[u16], before: u16, target: &mut [u16], at: usize) -> usize
    requires { (Reads image.now) × (before + (task_of image.now).atoms ≤ most_atoms)
        × (at + length (operators_behind before (task_of image.now).operators) ≤ length target.old) }
    ensures { Wrote target.old at (operators_behind before (task_of image.now).operators) target.new result }
{
    let mut to = at;
    for i in 0..task::operators(image) {
        to = operator(task::operator_block(image, i), before, target, to);
    }
    to
}
