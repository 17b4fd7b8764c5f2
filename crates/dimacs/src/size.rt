// The number of bytes of a text, before it is written.
ghost use Rattle.std.specs.Prelude.{◌≡◌, ◌≤◌, length};
ghost use Rattle.definitions.specs.Lists.{each};
ghost use Rattle.definitions.specs.Clauses.{width, most_rows};
ghost use Rattle.definitions.specs.Dimacs.{literal_word, dimacs_text};
ghost use Rattle.clause.specs.Rows.{row_count, clauses_of};
ghost use Rattle.dimacs.specs.Write.{row_line, head_line};

use clause::WIDTH;
use literal::Literal;

// The bytes of a literal.
fn literal_length(l: Literal) -> usize
    ensures { result ≡ length (literal_word l.code) }
{
    let digits = text::decimal_length(super::line::variable(l));
    if l.is_positive() { digits } else { digits + 1 }
}

// The bytes of a row's line: each literal and a space, then 0 and the line's end.
fn row_length(literals: &[u16]) -> usize
    requires { length literals.now ≤ width }
    ensures { result ≡ length (row_line literals.now) }
{
    let mut sum: usize = 2;
    for l in literals {
        sum += literal_length(Literal { code: *l }) + 1;
    }
    sum
}

// The bytes of the lines of all rows.
fn rows_length(clauses: &[u16]) -> usize
    requires { row_count clauses.now ≤ most_rows }
    ensures { result ≡ length (each row_line (clauses_of clauses.now)) }
{
    let mut sum: usize = 0;
    for row in clauses.chunks_exact(WIDTH) {
        sum += row_length(clause::literals(row));
    }
    sum
}

// The bytes of the header line: its word, spaces and end, and two numbers.
fn head_length(atoms: usize, count: usize) -> usize
    ensures { result ≡ length (head_line atoms count) }
{
    8 + text::decimal_length(atoms) + text::decimal_length(count)
}

// The bytes of the text.
pub fn text_length(clauses: &[u16], atoms: usize) -> usize
    requires { row_count clauses.now ≤ most_rows }
    ensures { result ≡ length (dimacs_text atoms (clauses_of clauses.now)) }
{
    head_length(atoms, clause::rows(clauses)) + rows_length(clauses)
}
