// Questions 24 to 26 of a text, and its rows written. The rows are made in local arrays, since a refusal changes nothing lent.
ghost use Rattle.std.specs.Prelude.{◌≡◌, ℕ, ◌*◌, ◌≤◌, List, length};
ghost use Rattle.definitions.specs.Answer.{outcome};
ghost use Rattle.definitions.specs.Literal.{most_atoms};
ghost use Rattle.definitions.specs.Clauses.{width};
ghost use Rattle.definitions.specs.Groups.{written};
ghost use Rattle.answer.specs.Answer.{count_answer};
ghost use Rattle.dimacs_rows.specs.Reading.{clauses_at, Clauses};
ghost use Rattle.dimacs_rows.specs.Rows.{Buffers};
ghost use Rattle.dimacs.specs.Read.{rows_answer, form_answer, RowsRead};

use answer::{Question, Refusal};
use clause::WIDTH;
use dimacs_rows::Unread;

// Question 26 of the target, and the first rows written.
fn write_rows(rows: &[u16], count: usize, clauses: &mut [u16]) -> Result<usize, Refusal>
    requires { width * count ≤ length rows.now }
    ensures { (D : List (List ℕ)) → RowsRead D rows.now count → outcome (count_answer result) clauses.new
        ≡ written clauses.old (rows_answer D (length clauses.old)) }
{
    let end = WIDTH * count;
    if clauses.len() < end {
        return Err(Question::TextRoom.into());
    }
    clauses[..end].copy_from_slice(&rows[..end]);
    Ok(count)
}

// Questions 25 and 26 of the clauses from a place on, and their rows written, with two buffers for these.
fn read_rows(
    text: &[u8],
    from: usize,
    rows: &mut [u16],
    work: &mut [u16],
    clauses: &mut [u16],
) -> Result<usize, Refusal>
    requires { Clauses text.now from × Buffers rows.old work.old }
    ensures { outcome (count_answer result) clauses.new ≡ written clauses.old (rows_answer (clauses_at text.now from) (length clauses.old)) }
{
    match dimacs_rows::collect(text, from, rows, work) {
        Ok(count) => write_rows(rows, count, clauses),
        Err(Unread::Unfit) => Err(Question::TextClause.into()),
        Err(Unread::Full) => Err(Question::TextRoom.into()),
    }
}

// Questions 25 and 26 of the clauses from a place on, and their rows written.
fn read_from(text: &[u8], from: usize, clauses: &mut [u16]) -> Result<usize, Refusal>
    requires { Clauses text.now from }
    ensures { outcome (count_answer result) clauses.new ≡ written clauses.old (rows_answer (clauses_at text.now from) (length clauses.old)) }
{
    let mut rows = dimacs_rows::rows::room();
    let mut work = dimacs_rows::rows::room();
    read_rows(text, from, &mut rows, &mut work, clauses)
}

// Questions 24 to 26 of a text over the atoms, and its rows written.
pub fn read_form(text: &[u8], atoms: usize, clauses: &mut [u16]) -> Result<usize, Refusal>
    requires { atoms ≤ most_atoms }
    ensures { outcome (count_answer result) clauses.new ≡ written clauses.old (form_answer atoms text.now (length clauses.old)) }
{
    let from = dimacs_form::check_form(text, atoms).ok_or(Question::TextForm)?;
    read_from(text, from, clauses)
}
