// All judged clauses under one operator.
ghost use Rattle.std.specs.Prelude.{◌≡◌, ℕ, ◌*◌, ◌≤◌, length};
ghost use mathlib.Core.List.{List, Memᴰ};
ghost use Rattle.definitions.specs.Lists.{any, member};
ghost use Rattle.definitions.specs.Literal.{complement};
ghost use Rattle.definitions.specs.Closure.{has};
ghost use Rattle.definitions.specs.Clauses.{clause_of};
ghost use Rattle.definitions.specs.Marks.{mark_bytes};
ghost use Rattle.clause.specs.Rows.{row_count, clauses_of};
ghost use Rattle.judge.specs.Judging.{lacks_flag, flag_more, fail_flags, Guarantees};
ghost use Rattle.judge.specs.Promise.{BulkGiven};
ghost use Rattle.judge.specs.Under.{operator_under, IsClosure, guaranteed_under, flag_by_row, flag_by_rows};
ghost use Rattle.propagation.specs.Marks.{Asked, ConsistentMarks};
ghost use Rattle.task.specs.Walk.{row, operator_in};

use super::under::{Closed, Under};
use clause::WIDTH;
use propagation::Closing;
use task::rows::{Row, Rows};

// Whether some literal of a list has its flag.
fn some_flagged(literals: &[u16], flags: &[u8]) -> bool
    ensures { result ≡ any (has flags.now) literals.now }
{
    literals
        .iter()
        .any(|l| literal::flags::has(flags, literal::wide(*l)))
}

// Whether the clause of a row holds `l` and no literal that has its flag.
fn lacks_flag(row: &[u16], l: u16, flags: &[u8]) -> bool
    ensures { result ≡ lacks_flag l flags.now (clause_of row.now) }
{
    clause::has_literal(row, l) && !some_flagged(clause::literals(row), flags)
}

// Whether some judged clause holds `l`.
fn some_holds(judged: &[u16], l: u16) -> bool
    ensures { result ≡ any (member l) (clauses_of judged.now) }
{
    for row in judged.chunks_exact(WIDTH) {
        if clause::has_literal(row, l) {
            return true;
        }
    }
    false
}

// Flags the judged clauses that hold `l` and no literal that has its flag.
fn flag_lacking(judged: &[u16], l: u16, flags: &[u8], fails: &mut [u8])
    requires { length fails.old ≡ row_count judged.now }
    ensures { fails.new ≡ flag_more (lacks_flag l flags.now) (clauses_of judged.now) fails.old }
{
    for (number, row) in judged.chunks_exact(WIDTH).enumerate() {
        if lacks_flag(row, l, flags) {
            fails[number] = 1;
        }
    }
}

impl Closed<'_> {
    // Flags the judged clauses that a row with these conditions violates, where `l` is the complement of its effect. Conditions that
    // are marked add nothing to the closure. Since the row can fire, `l` itself is guaranteed only if an add row of it surely fires.
    fn judge_row(&self, conditions: &[u16], l: u16, marks: &mut [u8], fails: &mut [u8])
        requires { Asked self.now.under.now.atoms self.now.under.now.clauses.now conditions.now marks.old
            × (length fails.old ≡ row_count self.now.under.now.judged.now) }
        ensures { (e : ℕ) → l ≡ complement e → Memᴰ (row e conditions.now) (operator_under self.now.under.now).rows → fails.new
            ≡ flag_by_row self.now.under.now (row e conditions.now) fails.old }
    {
        let under = self.under;
        if propagation::marks::holds_all(self.base, conditions) {
            flag_lacking(under.judged, l, self.guaranteed, fails);
            return;
        }
        propagation::marks::copy(self.base, marks, under.atoms);
        if let Closing::Consistent = propagation::extend(
            under.clauses,
            conditions,
            marks,
            under.atoms,
        ) {
            under.flag_violated(l, marks, fails);
        }
    }

    // Flags the judged clauses that some row violates.
    fn judge_rows(&self, marks: &mut [u8], fails: &mut [u8])
        requires { (mark_bytes self.now.under.now.atoms ≤ length marks.old) × (length fails.old ≡ row_count self.now.under.now.judged.now) }
        ensures { fails.new ≡ flag_by_rows self.now.under.now (operator_under self.now.under.now).rows fails.old }
    {
        let Under { judged, block, .. } = *self.under;
        for Row { effect, conditions } in Rows::of(block) {
            let l = super::guarantee::complement(literal::wide(effect));
            if !some_holds(judged, l) {
                continue;
            }
            self.judge_row(conditions, l, marks, fails);
        }
    }
}

impl Under<'_> {
    // Flags the judged clauses that hold `l` and no literal that the operator guarantees, where the marks are those of a closure.
    fn flag_violated(&self, l: u16, marks: &[u8], fails: &mut [u8])
        requires { ConsistentMarks self.now.atoms marks.now × (length fails.old ≡ row_count self.now.judged.now) }
        ensures { (ls : List ℕ) → IsClosure self.now ls marks.now → fails.new
            ≡ flag_more (lacks_flag l (guaranteed_under self.now ls)) (clauses_of self.now.judged.now) fails.old }
    {
        let mut room = literal::room::literal_flags();
        let flags = &mut room[..2 * self.atoms];
        self.flag_guaranteed(marks, flags);
        flag_lacking(self.judged, l, flags, fails);
    }

    // Flags the judged clauses that some row violates, and the literals that the operator guarantees, where the marks are those of the
    // clauses' and the precondition's closure.
    fn judge_consistent(&self, marks: &mut [u8], fails: &mut [u8], flags: &mut [u8])
        requires { IsClosure self.now (operator_under self.now).precondition marks.old
            × (length fails.old ≡ row_count self.now.judged.now) × (length flags.old ≡ 2 * self.now.atoms) }
        ensures { (fails.new ≡ flag_by_rows self.now (operator_under self.now).rows fails.old)
            × (flags.new ≡ guaranteed_under self.now (operator_under self.now).precondition) }
    {
        let mut base = propagation::marks::room();
        propagation::marks::copy(marks, &mut base, self.atoms);
        self.flag_guaranteed(&base, flags);
        let closed = Closed {
            under: self,
            base: &base,
            guaranteed: flags,
        };
        closed.judge_rows(marks, fails);
    }
}

// Flags the judged clauses that the clauses do not keep under the operator of a block, and the literals that it guarantees. It
// answers false, with flags of literals that say nothing, where the closure of the clauses and the precondition is contradictory:
// then no clause fails under the operator.
pub fn judge_guaranteed(
    clauses: &[u16],
    judged: &[u16],
    block: &[u16],
    marks: &mut [u8],
    atoms: usize,
    fails: &mut [u8],
    flags: &mut [u8],
) -> bool
    requires { BulkGiven atoms clauses.now judged.now block.now marks.old fails.old × (length flags.old ≡ 2 * atoms) }
    ensures { (fails.new
        ≡ fail_flags atoms (clauses_of clauses.now) (operator_in block.now) (clauses_of judged.now))
        × Guarantees atoms (clauses_of clauses.now) (operator_in block.now) flags.new result }
{
    literal::flags::clear(fails);
    let precondition = task::rows::precondition(block);
    match propagation::close(clauses, precondition, marks, atoms) {
        Closing::Contradictory => false,
        Closing::Consistent => {
            let under = Under {
                clauses,
                judged,
                block,
                atoms,
            };
            under.judge_consistent(marks, fails, flags);
            true
        }
    }
}

// Flags the judged clauses that the clauses do not keep under the operator of a block.
pub fn judge(
    clauses: &[u16],
    judged: &[u16],
    block: &[u16],
    marks: &mut [u8],
    atoms: usize,
    fails: &mut [u8],
)
    requires { BulkGiven atoms clauses.now judged.now block.now marks.old fails.old }
    ensures { fails.new
        ≡ fail_flags atoms (clauses_of clauses.now) (operator_in block.now) (clauses_of judged.now) }
{
    let mut room = literal::room::literal_flags();
    let flags = &mut room[..2 * atoms];
    judge_guaranteed(clauses, judged, block, marks, atoms, fails, flags);
}
