// Answers as numbers: the number of the question, 0 for a finding, and two values or places.
ghost use Rattle.std.specs.Prelude.{◌≡◌};
ghost use Rattle.answer.specs.Answer.{placed, verdict_answer, test_answer, count_answer};
ghost use Rattle.kulabismuth.specs.Returned.{returned, returned_refusal, returned_verdict, returned_test, returned_count, returned_made, returned_ticket};
ghost use Rattle.synthesis.specs.Answer.{synthesis_answer};
ghost use Rattle.ticket.specs.Answer.{asked_answer};

use answer::Refusal;
use synthesis::Found;
use ticket::Ticket;

fn findings(value: usize, other: usize, first: &mut u64, second: &mut u64) -> u32
    ensures { returned result first.new second.new ≡ returned 0 value other }
{
    *first = value as u64;
    *second = other as u64;
    0
}

fn finding(value: usize, first: &mut u64, second: &mut u64) -> u32
    ensures { returned result first.new second.new ≡ returned 0 value 0 }
{
    findings(value, 0, first, second)
}

fn refusal(f: Refusal, first: &mut u64, second: &mut u64) -> u32
    ensures { returned result first.new second.new ≡ returned_refusal (placed f) }
{
    *first = f.first as u64;
    *second = f.second as u64;
    u32::from(f.question.number())
}

pub fn verdict(v: Result<(), Refusal>, first: &mut u64, second: &mut u64) -> u32
    ensures { returned result first.new second.new ≡ returned_verdict (verdict_answer v) }
{
    match v {
        Ok(()) => finding(0, first, second),
        Err(f) => refusal(f, first, second),
    }
}

pub fn test(t: Result<bool, Refusal>, first: &mut u64, second: &mut u64) -> u32
    ensures { returned result first.new second.new ≡ returned_test (test_answer t) }
{
    match t {
        Ok(holds) => finding(usize::from(holds), first, second),
        Err(f) => refusal(f, first, second),
    }
}

pub fn count(c: Result<usize, Refusal>, first: &mut u64, second: &mut u64) -> u32
    ensures { returned result first.new second.new ≡ returned_count (count_answer c) }
{
    match c {
        Ok(number) => finding(number, first, second),
        Err(f) => refusal(f, first, second),
    }
}

pub fn made(s: Result<Found, Refusal>, first: &mut u64, second: &mut u64) -> u32
    ensures { returned result first.new second.new ≡ returned_made (synthesis_answer s) }
{
    match s {
        Ok(Found { rows, rounds }) => findings(rows, rounds, first, second),
        Err(f) => refusal(f, first, second),
    }
}

pub fn ticket(a: Result<Ticket, Refusal>, first: &mut u64, second: &mut u64) -> u32
    ensures { returned result first.new second.new ≡ returned_ticket (asked_answer a) }
{
    match a {
        Ok(Ticket { count, operator }) => {
            findings(usize::from(count), usize::from(operator), first, second)
        }
        Err(f) => refusal(f, first, second),
    }
}
