// The place of a row: its number and the position of its first word, counted up together. Number times width is the position
// throughout, so that a walk over rows neither divides nor multiplies.
ghost use Rattle.std.specs.Prelude.{◌≡◌, ◌+◌, ◌-◌, ltb};
ghost use Rattle.definitions.specs.Clauses.{row_at};
ghost use Rattle.clause.specs.Rows.{row_count};
ghost use Rattle.clause.specs.Place.{At, Placed, AtRow, HasNext, HasPrevious};

use super::WIDTH;

#[derive(Clone, Copy)]
pub struct RowPlace {
    pub number: usize,
    pub at: usize,
}

impl RowPlace {
    // The place of row 0.
    pub fn first() -> RowPlace
        ensures { At 0 result }
    {
        RowPlace { number: 0, at: 0 }
    }

    // The place of the next row.
    pub fn next(self) -> RowPlace
        requires { HasNext self }
        ensures { At (self.number + 1) result }
    {
        RowPlace {
            number: self.number + 1,
            at: self.at + WIDTH,
        }
    }

    // The place of the row before.
    pub fn previous(self) -> RowPlace
        requires { HasPrevious self }
        ensures { At (self.number - 1) result }
    {
        RowPlace {
            number: self.number - 1,
            at: self.at - WIDTH,
        }
    }

    // Whether it is the place of a row of a buffer.
    pub fn is_in(self, clauses: &[u16]) -> bool
        requires { Placed clauses.now self }
        ensures { result ≡ ltb self.number (row_count clauses.now) }
    {
        WIDTH <= clauses.len() - self.at
    }

    // The row at the place.
    pub fn row(self, clauses: &[u16]) -> &[u16]
        requires { AtRow clauses.now self }
        ensures { result.now ≡ row_at clauses.now self.number }
    {
        &clauses[self.at..self.at + WIDTH]
    }
}
