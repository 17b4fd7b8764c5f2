// The block of one operator: its precondition, then its rows.
ghost use Rattle.std.specs.Prelude.{◌≡◌, true, ◌+◌, ◌-◌, ◌≤◌, ◌<◌, leb, length, drop};
ghost use Rattle.definitions.specs.FdrImage.{domains_in, literals_in, fdr_row_right, fdr_rows_of, fdr_operator_of};
ghost use Rattle.fdr_image.specs.Walk.{kind_of, row, whole_row, rows_right, block_right, block_parses, operator_in, parses_at};
ghost use Rattle.fdr_image.specs.Post.{RowAt, RowRead, BlockRead};

// What a row does with its value.
#[derive(Clone, Copy)]
pub enum Kind {
    Set,
    Clear,
}

// The kind that a word stands for, if any.
pub fn kind_of(word: u16) -> Option<Kind>
    ensures { result ≡ kind_of word }
{
    match word {
        0 => Some(Kind::Set),
        1 => Some(Kind::Clear),
        _ => None,
    }
}

// Whether a row has a kind, and its value and conditions name atom values.
fn is_row(domains: &[u16], kind: u16, variable: usize, value: usize, conditions: &[u16]) -> bool
    ensures { result ≡ fdr_row_right (domains_in domains.now) (row kind variable value (literals_in conditions.now)) }
{
    kind_of(kind).is_some()
        && super::domain::is_atom_value(domains, variable, value)
        && super::domain::are_literals(domains, conditions)
}

// Whether all words of a row that begins at `at` are in the block.
fn is_whole(block: &[u16], at: usize) -> bool
    requires { at ≤ length block.now }
    ensures { result ≡ whole_row block.now at }
{
    block.len() - at >= 4 && 2 * literal::wide(block[at + 3]) <= block.len() - (at + 4)
}

// A row of a block: its kind, variable and value, and where its conditions begin and end. The next row begins at their end.
#[derive(Clone, Copy)]
pub struct RowPart {
    pub kind: u16,
    pub variable: usize,
    pub value: usize,
    pub from: usize,
    pub end: usize,
}

// The row at `at`, all words of which are in the block.
fn row_at(block: &[u16], at: usize) -> RowPart
    requires { whole_row block.now at ≡ true }
    ensures { RowAt block.now at result.kind result.variable result.value result.from result.end }
{
    let from = at + 4;
    RowPart {
        kind: block[at],
        variable: literal::wide(block[at + 1]),
        value: literal::wide(block[at + 2]),
        from,
        end: from + 2 * literal::wide(block[at + 3]),
    }
}

// Whether `rows` right rows stand from `from` to the end of the block.
fn are_rows(domains: &[u16], block: &[u16], from: usize, rows: usize) -> bool
    requires { from ≤ length block.now }
    ensures { result ≡ rows_right (domains_in domains.now) (fdr_rows_of rows (drop from block.now)) }
{
    let mut at = from;
    let mut left = rows;
    while 0 < left {
        if !is_whole(block, at) {
            return false;
        }
        let RowPart {
            kind,
            variable,
            value,
            from,
            end,
        } = row_at(block, at);
        if !is_row(domains, kind, variable, value, &block[from..end]) {
            return false;
        }
        at = end;
        left -= 1;
    }
    at == block.len()
}

// Whether the words are an operator's block, and its literals and rows name atom values.
pub fn is_block(domains: &[u16], block: &[u16]) -> bool
    ensures { result ≡ block_right (domains_in domains.now) (fdr_operator_of block.now) }
{
    if block.is_empty() {
        return false;
    }
    let end = 2 * literal::wide(block[0]) + 1;
    if block.len() <= end {
        return false;
    }
    super::domain::are_literals(domains, &block[1..end])
        && are_rows(domains, block, end + 1, literal::wide(block[end]))
}

// Where the precondition of a block ends, and its number of rows, which begin after the word at that end.
#[derive(Clone, Copy)]
pub struct BlockHead {
    pub end: usize,
    pub rows: usize,
}

pub fn head(block: &[u16]) -> BlockHead
    requires { block_parses block.now ≡ true }
    ensures { BlockRead block.now (operator_in block.now) result.end result.rows }
{
    let end = 2 * literal::wide(block[0]) + 1;
    BlockHead {
        end,
        rows: literal::wide(block[end]),
    }
}

// The row at `at`, where `left` rows are left.
pub fn row(block: &[u16], at: usize, left: usize) -> RowPart
    requires { (parses_at block.now at left ≡ true) × (0 < left) }
    ensures { RowRead block.now at left result.kind result.variable result.value result.from result.end }
{
    row_at(block, at)
}
