// The form of a DIMACS text: question 24, and its numbers one by one.
#![tactic(auto)]

ghost use Rattle.std.specs.Prelude.{true, cond, ◌≡◌, ℕ, ◌+◌, ◌<◌, ◌≤◌, min, drop};
ghost use Rattle.definitions.specs.Literal.{most_atoms};
ghost use Rattle.definitions.specs.Dimacs.{tokens};
ghost use Rattle.dimacs_form.specs.Walk.{tail_from};
ghost use Rattle.dimacs_form.specs.Places.{Place};
ghost use Rattle.dimacs_form.specs.Numbers.{most_size};
ghost use Rattle.dimacs_form.specs.Form.{plain_of, Counts, Says, Formed};

use number::Number;

pub mod header; // header.rt: comment lines and "p cnf"
pub mod number; // number.rt: a word as a number
pub mod word; // word.rt: blanks and words

// A number without a minus, and where the next word begins.
#[derive(Clone, Copy)]
pub struct Count {
    pub size: usize,
    pub next: usize,
}

// A number that has to have no minus.
fn plain(n: Number) -> Option<Count>
    ensures { result ≡ plain_of n }
{
    if n.minus {
        return None;
    }
    Some(Count {
        size: n.size,
        next: n.next,
    })
}

// The number without a minus at a place, if there is one.
fn count_at(text: &[u8], at: usize) -> Option<Count>
    requires { Place text.now at }
    ensures { Counts text.now at result }
{
    if text.len() <= at {
        return None;
    }
    let number = number::number_at(text, at)?;
    plain(number)
}

// The number of clauses so far, after a number that is 0 or is not.
fn one_more(clauses: usize, zero: bool) -> usize
    requires { clauses < most_size }
    ensures { result ≡ cond zero (clauses + 1) clauses }
{
    clauses + usize::from(zero)
}

// Whether the words from a place on are the numbers of `count` clauses over the atoms.
fn are_clauses(text: &[u8], from: usize, atoms: usize, count: usize) -> bool
    requires { Place text.now from × (0 < from) × (atoms ≤ most_atoms) }
    ensures { (k : ℕ) → count ≡ min most_size k → result ≡ tail_from atoms k 0 true (tokens (drop from text.now)) }
{
    let mut at = from;
    let mut clauses: usize = 0;
    let mut ended = true;
    while at < text.len() {
        let Some(n) = number::number_at(text, at) else {
            return false;
        };
        if atoms < n.size {
            return false;
        }
        ended = n.size == 0;
        clauses = one_more(clauses, ended);
        at = n.next;
    }
    count == clauses && ended
}

// Where the clauses begin, if the words from a place on are N, the number of clauses, and these.
fn counts(text: &[u8], at: usize, atoms: usize) -> Option<usize>
    requires { Place text.now at × (0 < at) × (atoms ≤ most_atoms) }
    ensures { Says atoms text.now at result }
{
    let variables = count_at(text, at)?;
    if variables.size != atoms {
        return None;
    }
    let clauses = count_at(text, variables.next)?;
    let from = clauses.next;
    are_clauses(text, from, atoms, clauses.size).then_some(from)
}

// Question 24: where the clauses begin, if a text over the atoms is of the form.
pub fn check_form(text: &[u8], atoms: usize) -> Option<usize>
    requires { atoms ≤ most_atoms }
    ensures { Formed atoms text.now result }
{
    let start = header::behind_comments(text);
    if !header::is_headed(text, start) {
        return None;
    }
    let at = word::skip_blanks(text, start + 5);
    counts(text, at, atoms)
}
