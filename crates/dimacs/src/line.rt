// The lines of a text, written into a lent buffer from a position on. Each function that writes gives the position after the bytes that it wrote.
ghost use Rattle.std.specs.Prelude.{◌≡◌, ◌+◌, ◌≤◌, length};
ghost use Rattle.definitions.specs.Lists.{each};
ghost use Rattle.definitions.specs.Literal.{atom};
ghost use Rattle.definitions.specs.Dimacs.{literal_word, dimacs_text};
ghost use Rattle.clause.specs.Rows.{clauses_of};
ghost use Rattle.writing.specs.Writing.{Wrote};
ghost use Rattle.dimacs.specs.Write.{minus_of, row_line, head_line};

use clause::WIDTH;
use literal::Literal;

// The variable of a literal: that of atom a is a+1.
pub fn variable(l: Literal) -> usize
    ensures { result ≡ atom l.code + 1 }
{
    l.atom() + 1
}

// Writes a minus if the literal is that of a false atom.
fn write_minus(out: &mut [u8], at: usize, l: Literal) -> usize
    requires { at + length (minus_of l.code) ≤ length out.old }
    ensures { Wrote out.old at (minus_of l.code) out.new result }
{
    if l.is_positive() {
        return at;
    }
    writing::byte(b'-', out, at)
}

// Writes a literal.
fn write_literal(out: &mut [u8], at: usize, l: Literal) -> usize
    requires { at + length (literal_word l.code) ≤ length out.old }
    ensures { Wrote out.old at (literal_word l.code) out.new result }
{
    let to = write_minus(out, at, l);
    text::write_decimal(out, to, variable(l))
}

// Writes the line of a row.
fn write_row(out: &mut [u8], at: usize, literals: &[u16]) -> usize
    requires { at + length (row_line literals.now) ≤ length out.old }
    ensures { Wrote out.old at (row_line literals.now) out.new result }
{
    let mut to = at;
    for l in literals {
        to = write_literal(out, to, Literal { code: *l });
        to = writing::byte(b' ', out, to);
    }
    writing::bytes(b"0\n", out, to)
}

// Writes the lines of all rows.
fn write_rows(out: &mut [u8], at: usize, clauses: &[u16]) -> usize
    requires { at + length (each row_line (clauses_of clauses.now)) ≤ length out.old }
    ensures { Wrote out.old at (each row_line (clauses_of clauses.now)) out.new result }
{
    let mut to = at;
    for row in clauses.chunks_exact(WIDTH) {
        to = write_row(out, to, clause::literals(row));
    }
    to
}

// Writes the header line: the numbers of atoms and of rows.
fn write_head(out: &mut [u8], at: usize, atoms: usize, count: usize) -> usize
    requires { at + length (head_line atoms count) ≤ length out.old }
    ensures { Wrote out.old at (head_line atoms count) out.new result }
{
    let next = text::write_named(out, at, b"p cnf", atoms);
    let end = text::write_number(out, next, count);
    writing::byte(b'\n', out, end)
}

// Writes the text at the start of `out`.
pub fn write_text(out: &mut [u8], clauses: &[u16], atoms: usize) -> usize
    requires { length (dimacs_text atoms (clauses_of clauses.now)) ≤ length out.old }
    ensures { Wrote out.old 0 (dimacs_text atoms (clauses_of clauses.now)) out.new result }
{
    let to = write_head(out, 0, atoms, clause::rows(clauses));
    write_rows(out, to, clauses)
}
