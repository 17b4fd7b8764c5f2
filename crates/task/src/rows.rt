// What stands in the block of an operator that parses: its precondition, and its rows one after the other.
ghost use Rattle.std.specs.Prelude.{◌≡◌, true, length};
ghost use Rattle.task.specs.Walk.{block_parses, operator_in, parses_at};

use super::block::{BlockHead, RowPart, head, row};

// A row: its effect, and its conditions.
#[derive(Clone, Copy)]
pub struct Row<'a> {
    pub effect: u16,
    pub conditions: &'a [u16],
}

// The rows of a block that are left: so many of them, from a place on.
#[derive(Clone, Copy)]
pub struct Rows<'a> {
    pub block: &'a [u16],
    pub at: usize,
    pub left: usize,
    ghost parses: { parses_at block.now at left ≡ true },
}

impl<'a> Rows<'a> {
    ghost use Rattle.task.specs.Rows.{rows_left};

    // All rows of a block.
    pub fn of(block: &'a [u16]) -> Rows<'a>
        requires { block_parses block.now ≡ true }
        ensures { rows_left result ≡ (operator_in block.now).rows }
    {
        let BlockHead { end, rows } = head(block);
        Rows {
            block,
            at: end + 1,
            left: rows,
        }
    }

    // How many rows are left.
    pub fn len(&self) -> usize
        ensures { result ≡ length (rows_left self.now) }
    {
        self.left
    }
}

impl<'a> Iterator for Rows<'a> {
    ghost use Rattle.std.specs.Iterator.{YieldsFirstBy, item_count};
    ghost use Rattle.task.specs.Rows.{row_of, rows_left};

    type Item = Row<'a>;

    ghost next_gives = { YieldsFirstBy row_of rows_left };

    ghost remaining = { item_count rows_left };

    fn next(&mut self) -> Option<Row<'a>> {
        if self.left == 0 {
            return None;
        }
        let block = self.block;
        let RowPart { effect, from, end } = row(block, self.at, self.left);
        *self = Rows {
            block,
            at: end,
            left: self.left - 1,
        };
        Some(Row {
            effect: effect as u16,
            conditions: &block[from..end],
        })
    }
}

// The precondition of a block.
pub fn precondition(block: &[u16]) -> &[u16]
    requires { block_parses block.now ≡ true }
    ensures { result.now ≡ (operator_in block.now).precondition }
{
    let end = head(block).end;
    &block[1..end]
}
