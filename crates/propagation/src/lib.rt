// Propagation: the closure of clauses and literals in a mark buffer. From the clauses and literals given it marks the least set of
// literals that holds those given and, for each clause all of whose literals but one have their complement in it, that one.
#![tactic(auto)]

ghost use Rattle.std.specs.Prelude.{◌≡◌, true, ◌&&◌, List, ◌++◌, ℕ, ◌+◌, ◌*◌, ◌/◌, ◌<◌, eqb, length, get_or, drop};
ghost use Rattle.definitions.specs.Literal.{fill, complement, all_below};
ghost use Rattle.definitions.specs.Clauses.{clause_of};
ghost use Rattle.definitions.specs.Closure.{has, closure};
ghost use Rattle.definitions.specs.Marks.{mark_bytes, marked, marks_of};
ghost use Rattle.clause.specs.Rows.{clauses_of};
ghost use Rattle.propagation.specs.Marks.{Marked, ConsistentMarks, Asked, closing_of, Closes};
ghost use Rattle.propagation.specs.Walk.{set_of, Room, Ready, RestKept, ComplementInside, open_word, Scanned, Forcing, forced_of, Seeded};
ghost use Rattle.propagation.specs.Walk.{Passed, Saturated, Propagated};

use clause::WIDTH;
use literal::Literal;

pub mod marks; // marks.rt: a bit for each literal

// What propagation answers.
#[derive(Clone, Copy)]
pub enum Closing {
    // The marks are the closure, and it is not contradictory.
    Consistent,
    // The closure is contradictory.
    Contradictory,
}

// What a word adds to the scan of a row for its open literals, those whose complement is not marked.
#[derive(Clone, Copy)]
enum Scan {
    // Nothing: it is fill, or not open.
    Same,
    // The first open literal.
    First,
    // A second open literal.
    Second,
}

// What marking literals that follow did.
#[derive(Clone, Copy)]
enum Pass {
    // All were marked.
    Same,
    // Some were not, and are now.
    Grown,
    // The complement of one is marked, and propagation stops there.
    Contradictory,
}

// Whether the complement of literal `l` is marked.
fn is_false(marks: &[u8], l: u16) -> bool
    requires { (l < 65535) × (complement l / 8 < length marks.now) }
    ensures { result ≡ marked marks.now (complement l) }
{
    let opposite = (Literal { code: l }).complement();
    marks::is_marked(marks, opposite.index())
}

// Whether a word is an open literal: no fill, and its complement is not marked.
fn is_open(marks: &[u8], word: u16) -> bool
    requires { ComplementInside marks.now word }
    ensures { result ≡ open_word marks.now word }
{
    word != Literal::FILL && !is_false(marks, word)
}

// What `word` adds to the scan of a row whose first open literal is `first`, or fill if there is none.
fn scan_word(marks: &[u8], word: u16, first: u16) -> Scan
    requires { ComplementInside marks.now word }
    ensures { Scanned (marked marks.now (complement word)) word first result }
{
    if !is_open(marks, word) {
        return Scan::Same;
    }
    if first != Literal::FILL {
        return Scan::Second;
    }
    Scan::First
}

// Whether a row begins with `known`, and its second word is an open literal. Where `known` is open, that is two open literals, found
// without looking at the first one's mark.
fn second_is_open(row: &[u16], marks: &[u8], known: u16) -> bool
    requires { (1 < length row.now) × ComplementInside marks.now (get_or row.now 1 0) }
    ensures { result ≡ (eqb (get_or row.now 0 0) known && open_word marks.now (get_or row.now 1 0)) }
{
    row[0] == known && is_open(marks, row[1])
}

// Whether propagation stops at literal `l`: if `stops`, and its complement is marked.
fn stops_at(marks: &[u8], l: u16, stops: bool) -> bool
    requires { (l < 65535) × (complement l / 8 < length marks.now) }
    ensures { result ≡ (stops && marked marks.now (complement l)) }
{
    stops && is_false(marks, l)
}

// Marks the literals of a list. If `stops`, only up to one whose complement is marked.
fn seed(literals: &[u16], marks: &mut [u8], atoms: usize, stops: bool) -> Pass
    requires { Room stops atoms marks.old × (all_below (2 * atoms) literals.now ≡ true) }
    ensures { RestKept atoms marks.old marks.new
        × Seeded stops (set_of atoms marks.old) literals.now (set_of atoms marks.new) result }
{
    let mut pass = Pass::Same;
    for l in literals {
        if stops_at(marks, *l, stops) {
            return Pass::Contradictory;
        }
        if marks::add(marks, literal::wide(*l)) {
            pass = Pass::Grown;
        }
    }
    pass
}

// Marks what follows from a row: its only open literal `first`, or, where that is fill, all its literals, since each has its complement
// marked. Then propagation stops, if `stops`, at the first of them.
fn force(row: &[u16], first: u16, marks: &mut [u8], atoms: usize, stops: bool) -> Pass
    requires { Room stops atoms marks.old × Forcing atoms (set_of atoms marks.old) row.now first }
    ensures { RestKept atoms marks.old marks.new
        × Seeded stops (set_of atoms marks.old) (forced_of row.now first) (set_of atoms marks.new) result }
{
    if first == Literal::FILL {
        return seed(clause::literals(row), marks, atoms, stops);
    }
    if marks::add(marks, literal::wide(first)) {
        return Pass::Grown;
    }
    Pass::Same
}

// Walks over the clauses and the literals of each, and marks each literal that follows: a clause with two open literals forces nothing,
// one with one forces it, one with none all of its literals. If `stops`, it is left at the first complement met. Rows ascend, so that
// many begin with the same literal: `known` is the open literal of the last row that was scanned, or fill. Marking it leaves it open, so
// that the rows that begin with it need not be scanned from their first literal on.
fn walk(clauses: &[u16], marks: &mut [u8], atoms: usize, stops: bool) -> Pass
    requires { Ready stops atoms clauses.now marks.old }
    ensures { RestKept atoms marks.old marks.new
        × Passed stops clauses.now (set_of atoms marks.old) (set_of atoms marks.new) result }
{
    let mut pass = Pass::Same;
    let mut known = Literal::FILL;
    'walk: for row in clauses.chunks_exact(WIDTH) {
        if second_is_open(row, marks, known) {
            continue 'walk;
        }
        let mut first = Literal::FILL;
        for word in row {
            match scan_word(marks, *word, first) {
                Scan::Same => {}
                Scan::First => {
                    first = *word;
                }
                Scan::Second => {
                    known = first;
                    continue 'walk;
                }
            }
        }
        known = first;
        match force(row, first, marks, atoms, stops) {
            Pass::Same => {}
            Pass::Grown => {
                pass = Pass::Grown;
            }
            Pass::Contradictory => {
                pass = Pass::Contradictory;
                break 'walk;
            }
        }
    }
    pass
}

// Marks what follows from the marks. Whether nothing more follows: if not, it stopped at a complement.
fn saturate(clauses: &[u16], marks: &mut [u8], atoms: usize, stops: bool) -> bool
    requires { Ready stops atoms clauses.now marks.old }
    ensures { RestKept atoms marks.old marks.new
        × Saturated stops clauses.now (set_of atoms marks.old) (set_of atoms marks.new) result }
{
    loop {
        let pass = walk(clauses, marks, atoms, stops);
        match pass {
            Pass::Same => {
                return true;
            }
            Pass::Contradictory => {
                return false;
            }
            Pass::Grown => {}
        }
    }
}

// Marks the literals of a list and what follows. Whether nothing more follows: if not, it stopped at a complement.
fn propagate(clauses: &[u16], literals: &[u16], marks: &mut [u8], atoms: usize, stops: bool) -> bool
    requires { Ready stops atoms clauses.now marks.old × (all_below (2 * atoms) literals.now ≡ true) }
    ensures { RestKept atoms marks.old marks.new
        × Propagated stops clauses.now (set_of atoms marks.old) literals.now (set_of atoms marks.new) result }
{
    let seeded = seed(literals, marks, atoms, stops);
    if let Pass::Contradictory = seeded {
        return false;
    }
    saturate(clauses, marks, atoms, stops)
}

// The answer of propagation that stops at a complement.
fn answer_of(closed: bool) -> Closing
    ensures { result ≡ closing_of closed }
{
    if closed {
        Closing::Consistent
    } else {
        Closing::Contradictory
    }
}

// The closure of the clauses and the literals, over so many atoms.
pub fn close(clauses: &[u16], literals: &[u16], marks: &mut [u8], atoms: usize) -> Closing
    requires { Asked atoms clauses.now literals.now marks.old }
    ensures { Closes atoms (clauses_of clauses.now) literals.now marks.new result }
{
    marks::clear(marks, atoms);
    answer_of(propagate(clauses, literals, marks, atoms, true))
}

// The closure with more literals: marks that stand for the closure of a list are taken on to that of both lists.
pub fn extend(clauses: &[u16], literals: &[u16], marks: &mut [u8], atoms: usize) -> Closing
    requires { Asked atoms clauses.now literals.now marks.old × ConsistentMarks atoms marks.old }
    ensures { (ls : List ℕ) → Marked atoms marks.old (closure atoms (clauses_of clauses.now) ls)
        → Closes atoms (clauses_of clauses.now) (ls ++ literals.now) marks.new result }
{
    answer_of(propagate(clauses, literals, marks, atoms, true))
}

// The whole closure of the clauses and the literals, also where it is contradictory. What is beyond the marks of so many atoms stays.
pub fn close_fully(clauses: &[u16], literals: &[u16], marks: &mut [u8], atoms: usize)
    requires { Asked atoms clauses.now literals.now marks.old }
    ensures { marks.new
        ≡ marks_of atoms (closure atoms (clauses_of clauses.now) literals.now) marks.old
        ++ drop (mark_bytes atoms) marks.old }
{
    marks::clear(marks, atoms);
    propagate(clauses, literals, marks, atoms, false);
}
