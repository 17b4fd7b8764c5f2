// The lines of the card but those of groups.
ghost use Rattle.std.specs.Prelude.{◌≡◌, ◌+◌, ◌≤◌, length};
ghost use Rattle.definitions.specs.Lists.{each};
ghost use Rattle.definitions.specs.Card.{literal_text, clause_line, refused_text};
ghost use Rattle.answer.specs.Answer.{placed, refusal_at};
ghost use Rattle.clause.specs.Rows.{clauses_of};
ghost use Rattle.writing.specs.Writing.{Wrote};
ghost use Rattle.card.specs.Text.{sign_of, counts_line, set_text, groups_line};

use answer::Refusal;
use clause::WIDTH;
use literal::Literal;

// The sign of a literal.
fn sign(l: Literal) -> u8
    ensures { result ≡ sign_of l.code }
{
    if l.is_positive() { b'+' } else { b'-' }
}

// Writes a literal: its sign and atom.
fn write_literal(out: &mut [u8], at: usize, l: Literal) -> usize
    requires { at + length (literal_text l.code) ≤ length out.old }
    ensures { Wrote out.old at (literal_text l.code) out.new result }
{
    let to = writing::byte(sign(l), out, at);
    text::write_decimal(out, to, l.atom())
}

// Writes the line of a clause.
fn write_clause(out: &mut [u8], at: usize, literals: &[u16]) -> usize
    requires { at + length (clause_line literals.now) ≤ length out.old }
    ensures { Wrote out.old at (clause_line literals.now) out.new result }
{
    let mut to = at;
    for (i, l) in literals.iter().enumerate() {
        to = text::separate(out, to, i);
        to = write_literal(out, to, Literal { code: *l });
    }
    writing::byte(b'\n', out, to)
}

// Writes the lines of all rows.
fn write_clauses(out: &mut [u8], at: usize, clauses: &[u16]) -> usize
    requires { at + length (each clause_line (clauses_of clauses.now)) ≤ length out.old }
    ensures { Wrote out.old at (each clause_line (clauses_of clauses.now)) out.new result }
{
    let mut to = at;
    for row in clauses.chunks_exact(WIDTH) {
        to = write_clause(out, to, clause::literals(row));
    }
    to
}

// Writes the line of a refusal, by its number and places.
pub fn write_refused(out: &mut [u8], at: usize, number: u16, i: usize, j: usize) -> usize
    requires { at + length (refused_text (refusal_at number i j)) ≤ length out.old }
    ensures { Wrote out.old at (refused_text (refusal_at number i j)) out.new result }
{
    let first = text::write_named(out, at, b"refused", literal::wide(number));
    let second = text::write_number(out, first, i);
    let end = text::write_number(out, second, j);
    writing::byte(b'\n', out, end)
}

// Writes the line of a refusal.
pub fn write_refusal(out: &mut [u8], at: usize, f: Refusal) -> usize
    requires { at + length (refused_text (placed f)) ≤ length out.old }
    ensures { Wrote out.old at (refused_text (placed f)) out.new result }
{
    write_refused(out, at, f.question.number(), f.first, f.second)
}

// Writes the line of the numbers of clauses and rounds.
fn write_counts(out: &mut [u8], at: usize, clauses: usize, rounds: usize) -> usize
    requires { at + length (counts_line clauses rounds) ≤ length out.old }
    ensures { Wrote out.old at (counts_line clauses rounds) out.new result }
{
    let next = text::write_named(out, at, b"clauses", clauses);
    let end = text::write_named(out, next, b" rounds", rounds);
    writing::byte(b'\n', out, end)
}

// Writes the lines of a clause set that was found in a number of rounds.
pub fn write_set(out: &mut [u8], at: usize, clauses: &[u16], rounds: usize) -> usize
    requires { at + length (set_text (clauses_of clauses.now) rounds) ≤ length out.old }
    ensures { Wrote out.old at (set_text (clauses_of clauses.now) rounds) out.new result }
{
    let to = write_counts(out, at, clause::rows(clauses), rounds);
    write_clauses(out, to, clauses)
}

// Writes the line of the number of groups.
pub fn write_count(out: &mut [u8], at: usize, groups: usize) -> usize
    requires { at + length (groups_line groups) ≤ length out.old }
    ensures { Wrote out.old at (groups_line groups) out.new result }
{
    let end = text::write_named(out, at, b"groups", groups);
    writing::byte(b'\n', out, end)
}
