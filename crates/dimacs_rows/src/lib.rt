// The clauses of a DIMACS text as rows: question 25, and the rows in order, equal ones once.
#![tactic(auto)]

ghost use Rattle.std.specs.Prelude.{◌≡◌, length};
ghost use Rattle.definitions.specs.Clauses.{width};
ghost use Rattle.dimacs_rows.specs.Reading.{Clauses};
ghost use Rattle.dimacs_rows.specs.Rows.{Buffers, Fit};
ghost use Rattle.dimacs_rows.specs.Collected.{Finished, ClausesCollected};

use clause::{MOST_ROWS, WIDTH};

pub mod reading; // reading.rt: one clause, question 25
pub mod rows; // rows.rt: rows stored in a buffer

// Why the clauses of a text are not read.
#[derive(Clone, Copy)]
pub enum Unread {
    // Question 25 is answered no.
    Unfit,
    // More rows, equal ones counted once, than a clause set may have.
    Full,
}

// Sorts the rows that are stored, equal ones becoming one. Gives their number, unless they are more than a clause set may have.
fn finish(stored: Option<usize>, rows: &mut [u16], work: &mut [u16]) -> Option<usize>
    requires { Buffers rows.old work.old × Fit rows.old stored }
    ensures { Finished rows.old stored rows.new result }
{
    let count = stored?;
    let end = WIDTH * count;
    let kept = row_sort::sort(&mut rows[..end], work);
    (kept <= MOST_ROWS).then_some(kept)
}

// Reads the clauses from a place on into the first rows of a buffer, with a row to read each into, and gives their number.
fn collect_by(
    text: &[u8],
    from: usize,
    row: &mut [u16],
    rows: &mut [u16],
    work: &mut [u16],
) -> Result<usize, Unread>
    requires { Clauses text.now from × (length row.old ≡ width) × Buffers rows.old work.old }
    ensures { ClausesCollected text.now from rows.new result }
{
    let mut at = from;
    let mut stored = Some(0);
    while at < text.len() {
        let next = reading::read_clause(text, at, row).ok_or(Unread::Unfit)?;
        stored = rows::store(row, stored, rows, work);
        at = next;
    }
    finish(stored, rows, work).ok_or(Unread::Full)
}

// Reads the clauses from a place on into the first rows of a buffer, in row order, equal ones once, and gives their number.
pub fn collect(
    text: &[u8],
    from: usize,
    rows: &mut [u16],
    work: &mut [u16],
) -> Result<usize, Unread>
    requires { Clauses text.now from × Buffers rows.old work.old }
    ensures { ClausesCollected text.now from rows.new result }
{
    let mut row = clause_set::part::room();
    collect_by(text, from, &mut row, rows, work)
}
