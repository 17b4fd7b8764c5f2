// Comparisons of what two calls answer.
ghost use Rattle.std.specs.Prelude.{◌≡◌, eqb};
ghost use Rattle.answer.specs.Answer.{placed, verdict_answer, test_answer, count_answer};
ghost use Rattle.agreement.specs.Same.{same_refusal, same_answer, both_found, same_unit, same_bool};

use answer::Refusal;

// Two refusals, with their places.
pub fn refusals(a: Refusal, b: Refusal) -> bool
    ensures { result ≡ same_refusal (placed a) (placed b) }
{
    a.question.number() == b.question.number() && a.first == b.first && a.second == b.second
}

// What two steps answer.
pub fn verdicts(a: Result<(), Refusal>, b: Result<(), Refusal>) -> bool
    ensures { result ≡ same_answer same_unit (verdict_answer a) (verdict_answer b) }
{
    match (a, b) {
        (Ok(()), Ok(())) => true,
        (Err(f), Err(g)) => refusals(f, g),
        _ => false,
    }
}

// Whether neither of two calls was refused.
pub fn both_fine(a: Result<(), Refusal>, b: Result<(), Refusal>) -> bool
    ensures { result ≡ both_found same_unit (verdict_answer a) (verdict_answer b) }
{
    a.is_ok() && b.is_ok()
}

// What two goal tests say. A refused one says nothing.
pub fn tests(a: Result<bool, Refusal>, b: Result<bool, Refusal>) -> bool
    ensures { result ≡ both_found same_bool (test_answer a) (test_answer b) }
{
    match (a, b) {
        (Ok(x), Ok(y)) => x == y,
        _ => false,
    }
}

// What two list runs answer.
pub fn counts(a: Result<usize, Refusal>, b: Result<usize, Refusal>) -> bool
    ensures { result ≡ same_answer eqb (count_answer a) (count_answer b) }
{
    match (a, b) {
        (Ok(j), Ok(k)) => j == k,
        (Err(f), Err(g)) => refusals(f, g),
        _ => false,
    }
}
