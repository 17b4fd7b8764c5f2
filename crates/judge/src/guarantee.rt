// The literals that an operator guarantees.
ghost use Rattle.std.specs.Prelude.{◌≡◌, true, List, ℕ, ◌*◌, ◌<◌, ◌≤◌, length};
ghost use Rattle.definitions.specs.Literal.{most_atoms, complement};
ghost use Rattle.definitions.specs.Image.{operator_right};
ghost use Rattle.definitions.specs.Marks.{mark_bytes};
ghost use Rattle.clause.specs.Rows.{clauses_of};
ghost use Rattle.task.specs.Walk.{block_parses, operator_in};
ghost use Rattle.propagation.specs.Marks.{Marked, ConsistentMarks, Asked};
ghost use Rattle.judge.specs.Promise.{Given, FlagsGuaranteed};
ghost use Rattle.judge.specs.Judging.{flags_of, can_fire, flag_effects, drop_changed};
ghost use Rattle.judge.specs.Under.{operator_under, IsClosure, guaranteed_under};

use super::under::Under;
use literal::Literal;
use propagation::Closing;
use task::rows::{Row, Rows};

// The complement of a row's effect.
pub fn complement(effect: usize) -> u16
    requires { effect < 65535 }
    ensures { result ≡ complement effect }
{
    let code = effect as u16;
    Literal { code }.complement().code
}

// Flags the marked literals.
fn flag_marked(marks: &[u8], atoms: usize, flags: &mut [u8])
    requires { (atoms ≤ most_atoms) × (length flags.old ≡ 2 * atoms) }
    ensures { (K : List ℕ) → Marked atoms marks.now K → flags.new ≡ flags_of atoms K }
{
    for (l, flag) in flags.iter_mut().enumerate() {
        *flag = u8::from(propagation::marks::holds(marks, l));
    }
}

// Flags the effects of the rows whose conditions are marked: those of the adds, if `adds`, those of the deletes, if not.
fn flag_effects(block: &[u16], marks: &[u8], adds: bool, flags: &mut [u8])
    requires { block_parses block.now ≡ true }
    ensures { (atoms : ℕ) (K : List ℕ) → operator_right atoms (operator_in block.now) ≡ true
        → Marked atoms marks.now K → flags.new
        ≡ flag_effects adds K (operator_in block.now).rows flags.old }
{
    for Row { effect, conditions } in Rows::of(block) {
        let l = Literal { code: effect };
        if !l.has_sign(adds) {
            continue;
        }
        if !propagation::marks::holds_all(marks, conditions) {
            continue;
        }
        literal::flags::put(flags, l.index(), 1);
    }
}

impl Under<'_> {
    // Whether a row with these conditions can fire, where the marks are those of a closure.
    fn can_fire(&self, conditions: &[u16], marks: &[u8], work: &mut [u8]) -> bool
        requires { Asked self.now.atoms self.now.clauses.now conditions.now work.old × ConsistentMarks self.now.atoms marks.now }
        ensures { (ls : List ℕ) → IsClosure self.now ls marks.now → result ≡ can_fire self.now.atoms (clauses_of self.now.clauses.now) ls conditions.now }
    {
        if propagation::marks::holds_all(marks, conditions) {
            return true;
        }
        propagation::marks::copy(marks, work, self.atoms);
        matches!(
            propagation::extend(self.clauses, conditions, work, self.atoms),
            Closing::Consistent
        )
    }

    // Takes their flags from the complements of the effects of the rows that can fire.
    fn drop_changed(&self, marks: &[u8], work: &mut [u8], flags: &mut [u8])
        requires { ConsistentMarks self.now.atoms marks.now × (mark_bytes self.now.atoms ≤ length work.old) }
        ensures { (ls : List ℕ) → IsClosure self.now ls marks.now → flags.new
            ≡ drop_changed self.now.atoms (clauses_of self.now.clauses.now) ls (operator_under self.now).rows flags.old }
    {
        for Row { effect, conditions } in Rows::of(self.block) {
            let l = literal::wide(complement(literal::wide(effect)));
            if literal::flags::is_zero(flags, l) {
                continue;
            }
            if !self.can_fire(conditions, marks, work) {
                continue;
            }
            literal::flags::put(flags, l, 0);
        }
    }

    // Flags the literals that the operator guarantees, where the marks are those of the closure of the clauses and literals that hold
    // before it. A delete that surely fires makes its literal true only if no add row of the atom can fire; an add does so whatever is
    // deleted.
    pub fn flag_guaranteed(&self, marks: &[u8], flags: &mut [u8])
        requires { ConsistentMarks self.now.atoms marks.now × (length flags.old ≡ 2 * self.now.atoms) }
        ensures { (ls : List ℕ) → IsClosure self.now ls marks.now → flags.new ≡ guaranteed_under self.now ls }
    {
        let mut work = propagation::marks::room();
        flag_marked(marks, self.atoms, flags);
        flag_effects(self.block, marks, task::block::DELETES, flags);
        self.drop_changed(marks, &mut work, flags);
        flag_effects(self.block, marks, task::block::ADDS, flags);
    }
}

// The same for the block of an operator alone, where no clause is judged.
pub fn flag_guaranteed(clauses: &[u16], block: &[u16], marks: &[u8], atoms: usize, flags: &mut [u8])
    requires { Given atoms clauses.now block.now × ConsistentMarks atoms marks.now × (length flags.old ≡ 2 * atoms) }
    ensures { FlagsGuaranteed atoms clauses.now block.now marks.now flags.new }
{
    let under = Under {
        clauses,
        judged: &clauses[..0],
        block,
        atoms,
    };
    under.flag_guaranteed(marks, flags);
}
