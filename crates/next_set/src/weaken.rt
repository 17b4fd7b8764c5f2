// Failing clauses with one literal more, put into the next set.
ghost use Rattle.std.specs.Prelude.{◌≡◌, ◌*◌, ◌-◌, ◌≤◌, ◌<◌, length};
ghost use Rattle.std.proofs.Math.Option.{some};
ghost use Rattle.definitions.specs.Lists.{each, range};
ghost use Rattle.definitions.specs.Literal.{most_literals};
ghost use Rattle.definitions.specs.Image.{Task};
ghost use Rattle.definitions.specs.Clauses.{width};
ghost use Rattle.definitions.specs.Step.{operator_at};
ghost use Rattle.clause.specs.Rows.{row_count, clauses_of};
ghost use Rattle.clause.specs.Place.{AtRow};
ghost use Rattle.task.specs.Reads.{task_of};
ghost use Rattle.task.specs.Walk.{operator_in};
ghost use Rattle.judge.specs.Judging.{fail_flags};
ghost use Rattle.judge.specs.Promise.{BulkGiven};
ghost use Rattle.clause_set.specs.Put.{put_all};
ghost use Rattle.clause_set.specs.Held.{held, Room, Holds};
ghost use Rattle.next_set.specs.Build.{is_due, added_row, added_by, added_at, added_from};
ghost use Rattle.next_set.specs.Post.{Listed, ListedGuarantees, Weakening, WeakensAt, WeakensBelow};

use clause::WIDTH;
use clause::place::RowPlace;

// Lists the literals that have their flag.
fn list_flagged(flags: &[u8], list: &mut [u16]) -> usize
    requires { (length flags.now ≤ length list.old) × (length flags.now ≤ most_literals) }
    ensures { Listed flags.now list.new result }
{
    let mut count: usize = 0;
    for (l, flag) in flags.iter().enumerate() {
        if *flag == 1 {
            list[count] = l as u16;
            count += 1;
        }
    }
    count
}

// Flags the clauses that fail under the operator of a block, and lists the literals that it guarantees, where the closure of the
// clauses and its precondition is not contradictory.
fn judge_listed(
    clauses: &[u16],
    block: &[u16],
    atoms: usize,
    marks: &mut [u8],
    fails: &mut [u8],
    list: &mut [u16],
) -> usize
    requires { BulkGiven atoms clauses.now clauses.now block.now marks.old fails.old × (length list.old ≡ most_literals) }
    ensures { (fails.new ≡ fail_flags atoms (clauses_of clauses.now) (operator_in block.now) (clauses_of clauses.now))
        × ListedGuarantees atoms (clauses_of clauses.now) (operator_in block.now) list.new result }
{
    let mut flags = literal::room::literal_flags();
    let size = 2 * atoms;
    if !judge::bulk::judge_guaranteed(
        clauses,
        clauses,
        block,
        marks,
        atoms,
        fails,
        &mut flags[..size],
    ) {
        return 0;
    }
    list_flagged(&flags[..size], list)
}

// Whether the row at a place has `k` literals and its flag.
fn is_due(clauses: &[u16], flags: &[u8], k: usize, place: RowPlace) -> bool
    requires { (length flags.now ≡ row_count clauses.now) × AtRow clauses.now place }
    ensures { result ≡ is_due (clauses_of clauses.now) flags.now k place.number }
{
    flags[place.number] == 1 && clause::literals(place.row(clauses)).len() == k
}

// Puts the clause of the row at a place in with each literal of a list, if it has `k` literals and its flag. Here and below, what is
// given is the number of rows then, or `None` if a clause did not fit.
fn weaken_row(
    clauses: &[u16],
    flags: &[u8],
    list: &[u16],
    k: usize,
    place: RowPlace,
    work: &mut [u16],
    count: usize,
    rows: usize,
) -> Option<usize>
    requires { Weakening clauses.now flags.now list.now k × Room rows count work.old × AtRow clauses.now place }
    ensures { Holds rows result work.new
        (put_all rows (added_row (clauses_of clauses.now) flags.now list.now k place.number)
        (some (held count work.old))) }
{
    if !is_due(clauses, flags, k, place) {
        return Some(count);
    }
    let literals = clause::literals(place.row(clauses));
    clause_set::put_with_each(literals, list, work, count, rows)
}

// Puts each clause of `k` literals that has its flag in with each literal of a list.
fn weaken_rows(
    clauses: &[u16],
    flags: &[u8],
    list: &[u16],
    k: usize,
    work: &mut [u16],
    count: usize,
    rows: usize,
) -> Option<usize>
    requires { Weakening clauses.now flags.now list.now k × Room rows count work.old }
    ensures { Holds rows result work.new (put_all rows
        (each (added_row (clauses_of clauses.now) flags.now list.now k) (range 0 (row_count clauses.now))) (some (held count work.old))) }
{
    let mut taken = count;
    let mut place = RowPlace::first();
    while place.number < flags.len() {
        taken = weaken_row(clauses, flags, list, k, place, work, taken, rows)?;
        place = place.next();
    }
    Some(taken)
}

// Puts each clause of `k` literals that fails under the operator of a block in with each literal that the operator guarantees.
fn weaken_under(
    clauses: &[u16],
    block: &[u16],
    atoms: usize,
    k: usize,
    marks: &mut [u8],
    fails: &mut [u8],
    work: &mut [u16],
    count: usize,
    rows: usize,
) -> Option<usize>
    requires { BulkGiven atoms clauses.now clauses.now block.now marks.old fails.old × (k < width) × Room rows count work.old }
    ensures { (t : Task) → t.atoms ≡ atoms
        → Holds rows result work.new (put_all rows (added_by t (clauses_of clauses.now) k (operator_in block.now)) (some (held count work.old))) }
{
    let mut list = literal::room::literals();
    let length = judge_listed(clauses, block, atoms, marks, fails, &mut list);
    weaken_rows(clauses, fails, &list[..length], k, work, count, rows)
}

// Puts each clause of `k` literals that fails under an operator in with each literal that the operator guarantees, unless `due`
// says that there is none.
fn weaken_operator(
    image: &[u16],
    clauses: &[u16],
    atoms: usize,
    operator: usize,
    k: usize,
    due: &[u8],
    marks: &mut [u8],
    fails: &mut [u8],
    work: &mut [u16],
    count: usize,
    rows: usize,
) -> Option<usize>
    requires { WeakensAt image.now clauses.now atoms k due.now marks.old fails.old × (operator < length (task_of image.now).operators)
        × Room rows count work.old }
    ensures { Holds rows result work.new (put_all rows
        (added_by (task_of image.now) (clauses_of clauses.now) k (operator_at (task_of image.now) operator)) (some (held count work.old))) }
{
    if literal::flags::is_zero(due, WIDTH * operator + k) {
        return Some(count);
    }
    let block = task::operator_block(image, operator);
    weaken_under(clauses, block, atoms, k, marks, fails, work, count, rows)
}

// Puts in what all operators add for the failing clauses of `k` literals.
fn weaken_operators(
    image: &[u16],
    clauses: &[u16],
    atoms: usize,
    k: usize,
    due: &[u8],
    marks: &mut [u8],
    fails: &mut [u8],
    work: &mut [u16],
    count: usize,
    rows: usize,
) -> Option<usize>
    requires { WeakensAt image.now clauses.now atoms k due.now marks.old fails.old × Room rows count work.old }
    ensures { Holds rows result work.new (put_all rows (added_at (task_of image.now) (clauses_of clauses.now) k) (some (held count work.old))) }
{
    let mut taken = count;
    for operator in 0..task::operators(image) {
        taken = weaken_operator(
            image, clauses, atoms, operator, k, due, marks, fails, work, taken, rows,
        )?;
    }
    Some(taken)
}

// Puts in the weakened clauses, those of 2 literals first, up to those of `most`.
pub fn weaken(
    image: &[u16],
    clauses: &[u16],
    atoms: usize,
    most: usize,
    due: &[u8],
    marks: &mut [u8],
    fails: &mut [u8],
    work: &mut [u16],
    count: usize,
    rows: usize,
) -> Option<usize>
    requires { WeakensBelow image.now clauses.now atoms most due.now marks.old fails.old × Room rows count work.old }
    ensures { Holds rows result work.new (put_all rows (added_from (task_of image.now) (clauses_of clauses.now) 1 (most - 1)) (some (held count work.old))) }
{
    let mut taken = count;
    for k in 1..most {
        taken = weaken_operators(
            image, clauses, atoms, k, due, marks, fails, work, taken, rows,
        )?;
    }
    Some(taken)
}
