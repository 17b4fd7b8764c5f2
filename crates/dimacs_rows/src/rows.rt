// Rows stored in a buffer in the order of the text. Where the buffer is full, equal ones become one.
ghost use Rattle.std.specs.Prelude.{Some, ◌≡◌, ◌*◌, ◌<◌, length};
ghost use Rattle.definitions.specs.Clauses.{width};
ghost use Rattle.clause_set.specs.Held.{ClauseRow};
ghost use Rattle.dimacs_rows.specs.Rows.{most_stored, Buffers, Rows, Fit, Stores};

use clause::{MOST_ROWS, WIDTH};

// Rows that a buffer has room for: more than a clause set may have, so that equal ones are dropped now and then only.
pub const MOST_STORED: usize = MOST_ROWS + MOST_ROWS / 4;

// Room for the rows.
pub fn room() -> [u16; WIDTH * MOST_STORED]
    ensures { length result ≡ width * most_stored }
{
    [0; WIDTH * MOST_STORED]
}

// Writes a row after so many others, and gives their number then.
fn append(row: &[u16], rows: &mut [u16], count: usize) -> usize
    requires { ClauseRow row.now × Rows rows.old count × (count < most_stored) × (length rows.old ≡ width * most_stored) }
    ensures { Stores row.now rows.old (Some count) rows.new (Some result) }
{
    writing::words(row, rows, WIDTH * count);
    count + 1
}

// Stores a row in a buffer that is full, once equal rows have become one.
fn store_sorted(row: &[u16], rows: &mut [u16], work: &mut [u16]) -> Option<usize>
    requires { ClauseRow row.now × Buffers rows.old work.old × Fit rows.old (Some most_stored) }
    ensures { Stores row.now rows.old (Some most_stored) rows.new result }
{
    let kept = row_sort::sort(rows, work);
    if MOST_ROWS < kept {
        return None;
    }
    Some(append(row, rows, kept))
}

// Stores one row more. What is stored is a number of rows, or None if they are more, equal ones counted once, than a clause set may have.
pub fn store(
    row: &[u16],
    stored: Option<usize>,
    rows: &mut [u16],
    work: &mut [u16],
) -> Option<usize>
    requires { ClauseRow row.now × Buffers rows.old work.old × Fit rows.old stored }
    ensures { Stores row.now rows.old stored rows.new result }
{
    let count = stored?;
    if MOST_STORED <= count {
        return store_sorted(row, rows, work);
    }
    Some(append(row, rows, count))
}
