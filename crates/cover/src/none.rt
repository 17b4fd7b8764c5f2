// Which groups have the value none: all but those in which all atoms of a clause of positive literals lie.
ghost use Rattle.std.specs.Prelude.{◌≡◌, true, cond, ℕ, ◌≤◌, ◌<◌, length, get_or};
ghost use Rattle.definitions.specs.Lists.{any};
ghost use Rattle.definitions.specs.Literal.{all_below};
ghost use Rattle.clause.specs.Rows.{clauses_of};
ghost use Rattle.cover.specs.None.{in_group, lies_in, Within};

use clause::place::RowPlace;
use literal::Literal;

// Whether a literal is positive and its atom lies in a group. The atom's variable stands at the index of its positive literal.
fn is_in(places: &[u16], group: usize, l: Literal) -> bool
    requires { l.code < length places.now }
    ensures { result ≡ in_group places.now group l.code }
{
    l.is_positive() && literal::wide(places[l.index()]) == group
}

// Whether all literals are positive, with their atoms in a group.
fn lies_in(literals: &[u16], places: &[u16], group: usize) -> bool
    requires { all_below (length places.now) literals.now ≡ true }
    ensures { result ≡ lies_in places.now group literals.now }
{
    literals
        .iter()
        .all(|l| is_in(places, group, Literal { code: *l }))
}

// Omits none of the group in which all atoms of a clause of positive literals lie, if there is one.
fn omit(literals: &[u16], places: &[u16], none: &mut [u16])
    requires { (1 ≤ length literals.now) × (all_below (length places.now) literals.now ≡ true) × ((i : ℕ) → get_or places.now i 0 < length none.old) }
    ensures { (v : ℕ) → get_or none.new v 0 ≡ cond (lies_in places.now v literals.now) 0 (get_or none.old v 0) }
{
    let first = literal::wide(literals[0]);
    let group = literal::wide(places[first]);
    if lies_in(literals, places, group) {
        none[group] = 0;
    }
}

// Omits none where a clause says that an atom of the group is true.
pub fn omit_all(clauses: &[u16], places: &[u16], none: &mut [u16])
    requires { (Within clauses.now places.now) × ((i : ℕ) → get_or places.now i 0 < length none.old) }
    ensures { (v : ℕ) → get_or none.new v 0 ≡ cond (any (lies_in places.now v) (clauses_of clauses.now)) 0 (get_or none.old v 0) }
{
    let mut at_row = RowPlace::first();
    while at_row.is_in(clauses) {
        let row = at_row.row(clauses);
        omit(clause::literals(row), places, none);
        at_row = at_row.next();
    }
}
