// The block of one operator: its precondition, then its effect rows.
ghost use Rattle.std.specs.Prelude.{◌≡◌, true, ◌&&◌, ◌+◌, ◌-◌, ◌≤◌, ◌<◌, length, drop};
ghost use Rattle.definitions.specs.Answer.{verdict};
ghost use Rattle.definitions.specs.Literal.{most_atoms};
ghost use Rattle.definitions.specs.Image.{row_right, rows_of, read_operator};
ghost use Rattle.answer.specs.Answer.{verdict_answer};
ghost use Rattle.task.specs.Walk.{row, rows_verdict, block_parses, operator_in, parses_at};
ghost use Rattle.task.specs.Post.{RowRead, BlockRead};

use answer::{Question, Refusal, ask_at};

// The kinds of effect rows, for walks over the rows of one kind.
pub const ADDS: bool = true;

pub const DELETES: bool = false;

fn is_row(effect: usize, conditions: &[u16], atoms: usize) -> bool
    requires { atoms ≤ most_atoms }
    ensures { result ≡ row_right atoms (row effect conditions.now) }
{
    effect < 2 * atoms && literal::is_literal_list(conditions, atoms)
}

// Questions 6 and 7 of operator `i`, whose `rows` rows begin at `from`, where `precondition` says whether its precondition is right.
fn check_rows(
    block: &[u16],
    from: usize,
    rows: usize,
    precondition: bool,
    atoms: usize,
    i: usize,
) -> Result<(), Refusal>
    requires { (atoms ≤ most_atoms) × (from ≤ length block.now) }
    ensures { verdict_answer result ≡ rows_verdict atoms i precondition (rows_of rows (drop from block.now)) }
{
    let mut at = from;
    let mut right = precondition;
    for _ in 0..rows {
        if block.len() - at < 2 {
            return Err(Refusal::at(Question::BlockCounts, i));
        }
        let effect = literal::wide(block[at]);
        let count = literal::wide(block[at + 1]);
        let start = at + 2;
        if block.len() - start < count {
            return Err(Refusal::at(Question::BlockCounts, i));
        }
        let end = start + count;
        right &= is_row(effect, &block[start..end], atoms);
        at = end;
    }
    if at < block.len() {
        return Err(Refusal::at(Question::BlockCounts, i));
    }
    ask_at(Question::BlockLiterals, i, right)
}

// Questions 6 and 7 of operator `i`, by its block, in a task of `atoms` atoms.
pub fn check(block: &[u16], atoms: usize, i: usize) -> Result<(), Refusal>
    requires { atoms ≤ most_atoms }
    ensures { verdict_answer result ≡ verdict (read_operator atoms i block.now) }
{
    if block.is_empty() {
        return Err(Refusal::at(Question::BlockCounts, i));
    }
    let count = literal::wide(block[0]);
    let end = count + 1;
    if block.len() <= end {
        return Err(Refusal::at(Question::BlockCounts, i));
    }
    let precondition = literal::is_literal_list(&block[1..end], atoms);
    let rows = literal::wide(block[end]);
    check_rows(block, end + 1, rows, precondition, atoms, i)
}

// Where the precondition of a block ends, and its number of rows, which begin after the word at that end.
#[derive(Clone, Copy)]
pub struct BlockHead {
    pub end: usize,
    pub rows: usize,
}

pub fn head(block: &[u16]) -> BlockHead
    requires { block_parses block.now ≡ true }
    ensures { BlockRead block.now (operator_in block.now) result.end result.rows }
{
    let end = literal::wide(block[0]) + 1;
    BlockHead {
        end,
        rows: literal::wide(block[end]),
    }
}

// A row of a block: its effect, and where its conditions begin and end. The next row begins at their end.
#[derive(Clone, Copy)]
pub struct RowPart {
    pub effect: usize,
    pub from: usize,
    pub end: usize,
}

// The row at `at`, where `left` rows are left.
pub fn row(block: &[u16], at: usize, left: usize) -> RowPart
    requires { (parses_at block.now at left ≡ true) × (0 < left) }
    ensures { RowRead block.now at left result.effect result.from result.end }
{
    let from = at + 2;
    RowPart {
        effect: literal::wide(block[at]),
        from,
        end: from + literal::wide(block[at + 1]),
    }
}
