// Literals, rows and operators as words of the re-encoded image. Each function gives the place after the words that it wrote.
ghost use Rattle.std.specs.Prelude.{◌≡◌, true, ◌+◌, ◌*◌, ◌%◌, ◌<◌, length};
ghost use Rattle.definitions.specs.Literal.{all_below};
ghost use Rattle.definitions.specs.Image.{row_right};
ghost use Rattle.task.specs.Walk.{row, operator_in};
ghost use Rattle.task.specs.Rows.{rows_left};
ghost use Rattle.task.specs.Post.{RowsOver, OperatorOver};
ghost use Rattle.writing.specs.Writing.{Wrote};
ghost use Rattle.reencoding.specs.Words.{atoms_of, literal_by, literals_by, counted_by, row_by, rows_by, operator_by, Ready};

use literal::Literal;
use task::rows::{Row, Rows, precondition};

// 1 if a literal is negative, else 0.
fn sign(l: Literal) -> u16
    ensures { result ≡ l.code % 2 }
{
    u16::from(!l.is_positive())
}

// Writes a literal: the variable of its atom, and twice the value, plus 1 if it is negative.
fn literal(l: Literal, places: &[u16], target: &mut [u16], at: usize) -> usize
    requires { (Ready places.now (literal_by places.now l.code) target.old at) × (l.code < 2 * atoms_of places.now) }
    ensures { Wrote target.old at (literal_by places.now l.code) target.new result }
{
    let a = l.atom();
    let negative = sign(l);
    target[at] = places[2 * a];
    target[at + 1] = 2 * places[2 * a + 1] + negative;
    at + 2
}

// Writes literals.
pub fn literals(list: &[u16], places: &[u16], target: &mut [u16], at: usize) -> usize
    requires { (Ready places.now (literals_by places.now list.now) target.old at) × (all_below (2 * atoms_of places.now) list.now ≡ true) }
    ensures { Wrote target.old at (literals_by places.now list.now) target.new result }
{
    let mut to = at;
    for l in list {
        to = literal(Literal { code: *l }, places, target, to);
    }
    to
}

// Writes the number of literals, then the literals.
fn counted(list: &[u16], places: &[u16], target: &mut [u16], at: usize) -> usize
    requires { (Ready places.now (counted_by places.now list.now) target.old at) × (all_below (2 * atoms_of places.now) list.now ≡ true)
        × (length list.now < 65536) }
    ensures { Wrote target.old at (counted_by places.now list.now) target.new result }
{
    target[at] = list.len() as u16;
    literals(list, places, target, at + 1)
}

// Writes a row: 0 for a set, 1 for a clear, variable and value of the effect's atom, and the conditions.
fn row(effect: Literal, conditions: &[u16], places: &[u16], target: &mut [u16], at: usize) -> usize
    requires { (Ready places.now (row_by places.now (row effect.code conditions.now)) target.old at)
        × (row_right (atoms_of places.now) (row effect.code conditions.now) ≡ true) × (length conditions.now < 65536) }
    ensures { Wrote target.old at (row_by places.now (row effect.code conditions.now)) target.new result }
{
    let a = effect.atom();
    let clears = sign(effect);
    target[at] = clears;
    target[at + 1] = places[2 * a];
    target[at + 2] = places[2 * a + 1];
    counted(conditions, places, target, at + 3)
}

// Writes rows.
fn rows(list: Rows, places: &[u16], target: &mut [u16], at: usize) -> usize
    requires { (Ready places.now (rows_by places.now (rows_left list)) target.old at) × (RowsOver (atoms_of places.now) (rows_left list)) }
    ensures { Wrote target.old at (rows_by places.now (rows_left list.entry)) target.new result }
{
    let mut to = at;
    for Row {
        effect: code,
        conditions,
    } in list {
        to = row(Literal { code }, conditions, places, target, to);
    }
    to
}

// Writes the operator of a block.
pub fn operator(block: &[u16], places: &[u16], target: &mut [u16], at: usize) -> usize
    requires { (Ready places.now (operator_by places.now (operator_in block.now)) target.old at) × (OperatorOver (atoms_of places.now) block.now) }
    ensures { Wrote target.old at (operator_by places.now (operator_in block.now)) target.new result }
{
    let list = Rows::of(block);
    let to = counted(precondition(block), places, target, at);
    target[to] = list.len() as u16;
    rows(list, places, target, to + 1)
}
