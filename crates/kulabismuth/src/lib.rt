// The calls of the C interface, which `kulabismuth_c` exports. Each returns 0 for a finding, else the number of the refusal; `first` and
// `second` receive the finding's values or the places, zero unless named.
#![tactic(auto)]

ghost use Rattle.std.specs.Prelude.{◌≡◌, length};
ghost use Rattle.definitions.specs.Answer.{verdict, state_after};
ghost use Rattle.definitions.specs.CallLists.{lent_after};
ghost use Rattle.definitions.specs.Image.{read_task};
ghost use Rattle.definitions.specs.Step.{step_task, goal_task, start_task, run_task};
ghost use Rattle.definitions.specs.Ticket.{ask_task, commit_task};
ghost use Rattle.definitions.specs.ClosureCall.{closure_call};
ghost use Rattle.definitions.specs.Checker.{check, keeps};
ghost use Rattle.definitions.specs.Synthesis.{synthesis_call};
ghost use Rattle.definitions.specs.Groups.{written, groups_call};
ghost use Rattle.definitions.specs.Encoding.{encode_call};
ghost use Rattle.definitions.specs.Coding.{to_atoms_call, from_atoms_call};
ghost use Rattle.definitions.specs.FdrStep.{step_fdr, goal_fdr, start_fdr, run_fdr};
ghost use Rattle.definitions.specs.Dimacs.{write_dimacs, read_dimacs};
ghost use Rattle.definitions.specs.Join.{join_call};
ghost use Rattle.ticket.specs.Answer.{counted, ticket_with};
ghost use Rattle.agreement.specs.Compared.{comparison, demanded};
ghost use Rattle.kulabismuth.specs.Returned.{returned, returned_verdict, returned_test, returned_count, returned_made, returned_ticket};

mod numbers; // numbers.rt: answers as numbers

// Reads a task image: questions 1 to 7.
pub fn kb_read(image: &[u16], first: &mut u64, second: &mut u64) -> u32
    ensures { returned result first.new second.new ≡ returned_verdict (verdict (read_task image.now)) }
{
    numbers::verdict(task::read(image), first, second)
}

// Sets a state to the initial one: 1 to 7, the length of 18.
pub fn kb_task_initial(image: &[u16], state: &mut [u8], first: &mut u64, second: &mut u64) -> u32
    ensures { (returned result first.new second.new ≡ returned_verdict (verdict (start_task image.now state.old)))
        × (state.new ≡ state_after state.old (start_task image.now state.old)) }
{
    numbers::verdict(state::set_initial(image, state), first, second)
}

// A step in the lent state: 1 to 7, 18 to 20.
pub fn kb_task_step(
    image: &[u16],
    state: &mut [u8],
    operator: u16,
    first: &mut u64,
    second: &mut u64,
) -> u32
    ensures { (returned result first.new second.new ≡ returned_verdict (verdict (step_task image.now state.old operator)))
        × (state.new ≡ state_after state.old (step_task image.now state.old operator)) }
{
    numbers::verdict(state::step(image, state, operator), first, second)
}

// The goal test: 1 to 7, 18. `first` is 1 if the goal is met, 0 if it is not.
pub fn kb_task_goal(image: &[u16], state: &[u8], first: &mut u64, second: &mut u64) -> u32
    ensures { returned result first.new second.new ≡ returned_test (goal_task image.now state.now) }
{
    numbers::test(state::goal_met(image, state), first, second)
}

// A list run in the lent state: 1 to 7 and 18 once, then 19 and 20 at each operator. `first` is the number of steps.
pub fn kb_task_run(
    image: &[u16],
    state: &mut [u8],
    list: &[u16],
    first: &mut u64,
    second: &mut u64,
) -> u32
    ensures { (returned result first.new second.new ≡ returned_count (run_task image.now state.old list.now).answer)
        × (state.new ≡ (run_task image.now state.old list.now).lent) }
{
    numbers::count(state::run(image, state, list), first, second)
}

// Asks for a step in a state with its commit count, and changes nothing: 1 to 7, 18 to 20. `first` and `second` are the ticket: the count and the
// operator.
pub fn kb_ask(
    image: &[u16],
    state: &[u8],
    count: u16,
    operator: u16,
    first: &mut u64,
    second: &mut u64,
) -> u32
    ensures { returned result first.new second.new
        ≡ returned_ticket (ask_task image.now (counted state.now count) operator) }
{
    numbers::ticket(ticket::ask(image, state, count, operator), first, second)
}

// Commits a ticket: its step in the lent state, and one more in the lent count: 1 to 7, 18, 28, 19, 20.
pub fn kb_commit(
    image: &[u16],
    state: &mut [u8],
    count: &mut u16,
    ticket_count: u16,
    ticket_operator: u16,
    first: &mut u64,
    second: &mut u64,
) -> u32
    ensures { (returned result first.new second.new
        ≡ returned_verdict (verdict (commit_task image.now (counted state.old count.old)
        (ticket_with ticket_count ticket_operator))))
        × (counted state.new count.new
        ≡ lent_after (counted state.old count.old)
        (commit_task image.now (counted state.old count.old) (ticket_with ticket_count ticket_operator))) }
{
    let given = ticket::Ticket {
        count: ticket_count,
        operator: ticket_operator,
    };
    numbers::verdict(ticket::commit(image, state, count, given), first, second)
}

// The closure of the clauses and an operator's precondition, in the marks: 1 to 9, 19, 13. `first` is the number of its literals.
pub fn kb_closure(
    image: &[u16],
    clauses: &[u16],
    operator: u16,
    marks: &mut [u8],
    first: &mut u64,
    second: &mut u64,
) -> u32
    ensures { (returned result first.new second.new
        ≡ returned_count (written marks.old (closure_call image.now clauses.now operator marks.old)).answer)
        × (marks.new ≡ (written marks.old (closure_call image.now clauses.now operator marks.old)).lent) }
{
    numbers::count(
        closure::closure(image, clauses, operator, marks),
        first,
        second,
    )
}

// Whether the clauses keep a clause under an operator: 1 to 9, then 8 and 9 for the clause alone, 19, 13. `first` is 1 if kept, 0 if not.
pub fn kb_kept(
    image: &[u16],
    clauses: &[u16],
    clause: &[u16],
    operator: u16,
    marks: &mut [u8],
    first: &mut u64,
    second: &mut u64,
) -> u32
    ensures { returned result first.new second.new ≡ returned_test (keeps image.now clauses.now clause.now operator (length marks.old)) }
{
    numbers::test(
        judge::kept(image, clauses, clause, operator, marks),
        first,
        second,
    )
}

// The checker: 1 to 9, 13, 10, 11. 10 names the lowest false clause, 11 the lowest clause that is not kept and under it the lowest
// operator.
pub fn kb_check(
    image: &[u16],
    clauses: &[u16],
    marks: &mut [u8],
    first: &mut u64,
    second: &mut u64,
) -> u32
    ensures { returned result first.new second.new ≡ returned_verdict (verdict (check image.now clauses.now (length marks.old))) }
{
    numbers::verdict(checker::accept(image, clauses, marks), first, second)
}

// Synthesis: 1 to 7, 12 to 15. `first` is the number of rows, `second` that of rounds.
pub fn kb_synthesize(
    image: &[u16],
    n: u16,
    limit: u16,
    clauses: &mut [u16],
    work: &mut [u16],
    marks: &mut [u8],
    first: &mut u64,
    second: &mut u64,
) -> u32
    ensures { (returned result first.new second.new
        ≡ returned_made (synthesis_call image.now n limit clauses.old (length work.old) (length marks.old)).answer)
        × (clauses.new ≡ (synthesis_call image.now n limit clauses.old (length work.old) (length marks.old)).lent) }
{
    numbers::made(
        synthesis::synthesize(image, n, limit, clauses, work, marks),
        first,
        second,
    )
}

// Groups: the checker's questions, then 16. Writes the domains part and the atoms part; `first` is the number of variables.
pub fn kb_groups(
    image: &[u16],
    clauses: &[u16],
    marks: &mut [u8],
    target: &mut [u16],
    first: &mut u64,
    second: &mut u64,
) -> u32
    ensures { (returned result first.new second.new
        ≡ returned_count (written target.old (groups_call image.now clauses.now (length marks.old) (length target.old))).answer)
        × (target.new ≡ (written target.old (groups_call image.now clauses.now (length marks.old) (length target.old))).lent) }
{
    numbers::count(groups::groups(image, clauses, marks, target), first, second)
}

// Re-encoding: the checker's questions, then 16. Writes the re-encoded image; `first` is its length.
pub fn kb_reencode(
    image: &[u16],
    clauses: &[u16],
    marks: &mut [u8],
    target: &mut [u16],
    first: &mut u64,
    second: &mut u64,
) -> u32
    ensures { (returned result first.new second.new
        ≡ returned_count (written target.old (encode_call image.now clauses.now (length marks.old) (length target.old))).answer)
        × (target.new ≡ (written target.old (encode_call image.now clauses.now (length marks.old) (length target.old))).lent) }
{
    numbers::count(
        reencoding::reencode(image, clauses, marks, target),
        first,
        second,
    )
}

// Sets a finite-domain state to the initial one: 17, the length of 18.
pub fn kb_fdr_initial(image: &[u16], state: &mut [u16], first: &mut u64, second: &mut u64) -> u32
    ensures { (returned result first.new second.new ≡ returned_verdict (verdict (start_fdr image.now state.old)))
        × (state.new ≡ state_after state.old (start_fdr image.now state.old)) }
{
    numbers::verdict(fdr::set_initial(image, state), first, second)
}

// A step in the lent finite-domain state: 17, 18 to 22.
pub fn kb_fdr_step(
    image: &[u16],
    state: &mut [u16],
    operator: u16,
    first: &mut u64,
    second: &mut u64,
) -> u32
    ensures { (returned result first.new second.new ≡ returned_verdict (verdict (step_fdr image.now state.old operator)))
        × (state.new ≡ state_after state.old (step_fdr image.now state.old operator)) }
{
    numbers::verdict(fdr::step(image, state, operator), first, second)
}

// The goal test in a finite-domain state: 17, 18. `first` is 1 if the goal is met, 0 if it is not.
pub fn kb_fdr_goal(image: &[u16], state: &[u16], first: &mut u64, second: &mut u64) -> u32
    ensures { returned result first.new second.new ≡ returned_test (goal_fdr image.now state.now) }
{
    numbers::test(fdr::goal_met(image, state), first, second)
}

// A list run in the lent finite-domain state: 17 and 18 once, then 19 to 22 at each operator. `first` is the number of steps.
pub fn kb_fdr_run(
    image: &[u16],
    state: &mut [u16],
    list: &[u16],
    first: &mut u64,
    second: &mut u64,
) -> u32
    ensures { (returned result first.new second.new ≡ returned_count (run_fdr image.now state.old list.now).answer)
        × (state.new ≡ (run_fdr image.now state.old list.now).lent) }
{
    numbers::count(fdr::run(image, state, list), first, second)
}

// The finite-domain state of a task's state: 17, 18, 23.
pub fn kb_encode(
    image: &[u16],
    state: &[u8],
    target: &mut [u16],
    first: &mut u64,
    second: &mut u64,
) -> u32
    ensures { (returned result first.new second.new ≡ returned_verdict (verdict (from_atoms_call image.now state.now (length target.old))))
        × (target.new ≡ state_after target.old (from_atoms_call image.now state.now (length target.old))) }
{
    numbers::verdict(coding::encode(image, state, target), first, second)
}

// The task's state of a finite-domain state: 17, 18.
pub fn kb_decode(
    image: &[u16],
    state: &[u16],
    target: &mut [u8],
    first: &mut u64,
    second: &mut u64,
) -> u32
    ensures { (returned result first.new second.new ≡ returned_verdict (verdict (to_atoms_call image.now state.now (length target.old))))
        × (target.new ≡ state_after target.old (to_atoms_call image.now state.now (length target.old))) }
{
    numbers::verdict(coding::decode(image, state, target), first, second)
}

// Demand 3 along a list of operator numbers: the checker's questions; then task and re-encoding are compared at the start and after
// each step, and by list runs. `first` is 1 if they agree, as they do for every accepted set, else 0.
pub fn kb_agree(
    image: &[u16],
    clauses: &[u16],
    list: &[u16],
    marks: &mut [u8],
    first: &mut u64,
    second: &mut u64,
) -> u32
    ensures { (returned result first.new second.new ≡ returned_test (comparison image.now clauses.now (length marks.old) list.now))
        × (returned result first.new second.new ≡ returned_test (demanded (check image.now clauses.now (length marks.old)))) }
{
    numbers::test(agreement::agree(image, clauses, list, marks), first, second)
}

// Writes clauses as a DIMACS text: 1 to 9, then 26. `first` is its number of bytes.
pub fn kb_write_dimacs(
    image: &[u16],
    clauses: &[u16],
    text: &mut [u8],
    first: &mut u64,
    second: &mut u64,
) -> u32
    ensures { (returned result first.new second.new
        ≡ returned_count (written text.old (write_dimacs image.now clauses.now (length text.old))).answer)
        × (text.new ≡ (written text.old (write_dimacs image.now clauses.now (length text.old))).lent) }
{
    numbers::count(dimacs::write(image, clauses, text), first, second)
}

// Reads a DIMACS text into clause rows: 1 to 7, then 24 to 26. `first` is the number of rows.
pub fn kb_read_dimacs(
    image: &[u16],
    text: &[u8],
    clauses: &mut [u16],
    first: &mut u64,
    second: &mut u64,
) -> u32
    ensures { (returned result first.new second.new
        ≡ returned_count (written clauses.old (read_dimacs image.now text.now (length clauses.old))).answer)
        × (clauses.new ≡ (written clauses.old (read_dimacs image.now text.now (length clauses.old))).lent) }
{
    numbers::count(dimacs::read(image, text, clauses), first, second)
}

// Joins two tasks: 1 to 7 of the first image, 1 to 7 of the second, 27. `first` is the length of the joined image.
pub fn kb_join(
    left: &[u16],
    right: &[u16],
    target: &mut [u16],
    first: &mut u64,
    second: &mut u64,
) -> u32
    ensures { (returned result first.new second.new ≡ returned_count (written target.old (join_call left.now right.now (length target.old))).answer)
        × (target.new ≡ (written target.old (join_call left.now right.now (length target.old))).lent) }
{
    numbers::count(joining::join(left, right, target), first, second)
}
