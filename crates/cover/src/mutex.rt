// Mutex atoms, by the clauses of a set: both are never true at once.
ghost use Rattle.std.specs.Prelude.{◌≡◌, [], ◌∷◌, ◌*◌, ◌+◌, ◌≤◌, ◌<◌, length};
ghost use Rattle.definitions.specs.Literal.{most_atoms, most_literals};
ghost use Rattle.definitions.specs.Groups.{has_clause, mutex};
ghost use Rattle.clause.specs.Rows.{clauses_of, RightRows};
ghost use Rattle.cover.specs.Mutex.{Alone, Known};

use literal::Literal;

// A clause set, and a mark for each atom that it says to be false.
#[derive(Clone, Copy)]
pub struct MutexAtoms<'a> {
    pub clauses: &'a [u16],
    pub alone: &'a [u8],
    pub ghost known: { Known clauses.now alone.now },
}

// Whether the set has the clause of one literal.
fn has_one(clauses: &[u16], l: Literal) -> bool
    requires { (RightRows most_atoms clauses.now) × (l.code < most_literals) }
    ensures { result ≡ has_clause (clauses_of clauses.now) (l.code ∷ []) }
{
    let mut row = [Literal::FILL; clause::WIDTH];
    row[0] = l.code;
    clause::is_there(clauses, &row)
}

// Whether the set has the clause of two literals.
fn has_two(clauses: &[u16], l: Literal, m: Literal) -> bool
    requires { (RightRows most_atoms clauses.now) × (l.code < most_literals) × (m.code < most_literals) }
    ensures { result ≡ has_clause (clauses_of clauses.now) (l.code ∷ m.code ∷ []) }
{
    let mut row = [Literal::FILL; clause::WIDTH];
    row[0] = l.code;
    row[1] = m.code;
    clause::is_there(clauses, &row)
}

// The literal that an atom is false.
fn negative(atom: usize) -> Literal
    requires { atom < most_atoms }
    ensures { result.code ≡ 2 * atom + 1 }
{
    Literal::new(atom as u16, false)
}

// Marks each atom that the set says to be false, which is mutex with every other.
pub fn mark_alone(clauses: &[u16], alone: &mut [u8])
    requires { (RightRows most_atoms clauses.now) × (length alone.old ≤ most_atoms) }
    ensures { (Alone (clauses_of clauses.now) alone.new) × (length alone.new ≡ length alone.old) }
{
    for (a, mark) in alone.iter_mut().enumerate() {
        *mark = u8::from(has_one(clauses, negative(a)));
    }
}

impl MutexAtoms<'_> {
    // Whether atom `a` is mutex with the lower atom `b`.
    pub fn is_mutex(&self, a: usize, b: usize) -> bool
        requires { (a < length self.now.alone.now) × (b < a) }
        ensures { result ≡ mutex (clauses_of self.now.clauses.now) a b }
    {
        self.alone[a] == 1 || self.alone[b] == 1 || has_two(self.clauses, negative(b), negative(a))
    }
}
