// The test programs over the C interface: `run` runs the calls on the cases of standard input, and writes what each answers.
// A case is little-endian words: the call, two numbers, for each of four lists its length and how many of its first values are
// stored, then the stored values of the lists. The lists are an image, two more lists of words, and a list of bytes (a word for
// each byte). A value that is not stored is 7. The calls and their numbers stand in `task_call` (0 to 4), `clause_call` (5 to 9),
// `fdr_call` (10 to 16), `dimacs_call` (17 and 18), `ticket_call` (21 and 22) and `call` (19 and 20). A line has the returned number, both
// values or places, and each list that was lent to be changed, after a bar (not marks and work, which may hold anything, but the marks of 20).
//
// Only `run` is public. The functions that write take a writer, and give its error where it fails.
#![tactic(auto)]

ghost use Rattle.std.specs.Prelude.{◌*◌, ◌≤◌, length};
ghost use Rattle.cases.specs.Case.{most_input};

use std::io::{self, Write};

mod input; // input.rt: the words of a case and its lists

// ---- A line

fn field<W: Write>(out: &mut W, number: u64) -> io::Result<()> {
    write!(out, "{number} ")
}

fn bar<W: Write>(out: &mut W) -> io::Result<()> {
    write!(out, "| ")
}

fn end_line<W: Write>(out: &mut W) -> io::Result<()> {
    writeln!(out)
}

fn write_list<W: Write, T: Copy + Into<u64>>(out: &mut W, list: &[T]) -> io::Result<()> {
    bar(out)?;
    for x in list {
        field(out, (*x).into())?;
    }
    Ok(())
}

// The lists that call `which` was lent to be changed.
fn write_lent<W: Write>(
    out: &mut W,
    which: u16,
    list: &[u16],
    other: &[u16],
    small: &[u8],
) -> io::Result<()> {
    match which {
        1 | 2 | 4 | 15 | 17 | 20 => write_list(out, small),
        7 | 10 | 11 | 13 | 14 | 18 => write_list(out, list),
        8 | 9 | 19 => write_list(out, other),
        22 => {
            write_list(out, small)?;
            write_list(out, list)
        }
        _ => Ok(()),
    }
}

// ---- The calls

// 0 read, 1 initial state, 2 step, 3 goal test, 4 list run. `x` is the operator of a step.
fn task_call(
    which: u16,
    x: u16,
    image: &[u16],
    list: &[u16],
    state: &mut [u8],
    first: &mut u64,
    second: &mut u64,
) -> u32 {
    match which {
        0 => kulabismuth::kb_read(image, first, second),
        1 => kulabismuth::kb_task_initial(image, state, first, second),
        2 => kulabismuth::kb_task_step(image, state, x, first, second),
        3 => kulabismuth::kb_task_goal(image, state, first, second),
        _ => kulabismuth::kb_task_run(image, state, list, first, second),
    }
}

// 5 kept, 6 checker, 7 synthesis, 8 groups, 9 re-encoding. `x` is the operator of 5; `x` and `y` are n and limit of 7; `other` is
// the clause of 5, the work of 7, the target of 8 and 9.
fn clause_call(
    which: u16,
    x: u16,
    y: u16,
    image: &[u16],
    clauses: &mut [u16],
    other: &mut [u16],
    marks: &mut [u8],
    first: &mut u64,
    second: &mut u64,
) -> u32 {
    match which {
        5 => kulabismuth::kb_kept(image, clauses, other, x, marks, first, second),
        6 => kulabismuth::kb_check(image, clauses, marks, first, second),
        7 => kulabismuth::kb_synthesize(image, x, y, clauses, other, marks, first, second),
        8 => kulabismuth::kb_groups(image, clauses, marks, other, first, second),
        _ => kulabismuth::kb_reencode(image, clauses, marks, other, first, second),
    }
}

// On re-encoded tasks: 10 initial state, 11 step, 12 goal test, 13 list run, 14 coding from atoms, 15 coding to atoms. `x` is the
// operator of a step, `small` the task's state. 16 compares task and re-encoding: `list` is the clause set, `other` the list, `small` the marks.
fn fdr_call(
    which: u16,
    x: u16,
    image: &[u16],
    list: &mut [u16],
    other: &[u16],
    small: &mut [u8],
    first: &mut u64,
    second: &mut u64,
) -> u32 {
    match which {
        10 => kulabismuth::kb_fdr_initial(image, list, first, second),
        11 => kulabismuth::kb_fdr_step(image, list, x, first, second),
        12 => kulabismuth::kb_fdr_goal(image, list, first, second),
        13 => kulabismuth::kb_fdr_run(image, list, other, first, second),
        14 => kulabismuth::kb_encode(image, small, list, first, second),
        15 => kulabismuth::kb_decode(image, list, small, first, second),
        _ => kulabismuth::kb_agree(image, list, other, small, first, second),
    }
}

// On DIMACS texts: 17 writing, 18 reading. `small` is the text, `list` the clause rows.
fn dimacs_call(
    which: u16,
    image: &[u16],
    list: &mut [u16],
    small: &mut [u8],
    first: &mut u64,
    second: &mut u64,
) -> u32 {
    match which {
        17 => kulabismuth::kb_write_dimacs(image, list, small, first, second),
        _ => kulabismuth::kb_read_dimacs(image, small, list, first, second),
    }
}

// A commit of the ticket with count `y` and operator `x`; the state's count is the first word of `list`.
fn commit_call(
    x: u16,
    y: u16,
    image: &[u16],
    list: &mut [u16],
    state: &mut [u8],
    first: &mut u64,
    second: &mut u64,
) -> u32 {
    let mut count = input::word(list, 0);
    let number = kulabismuth::kb_commit(image, state, &mut count, y, x, first, second);
    if let Some(word) = list.first_mut() {
        *word = count;
    }
    number
}

// 21 asks for operator `x` at count `y`, 22 commits.
fn ticket_call(
    which: u16,
    x: u16,
    y: u16,
    image: &[u16],
    list: &mut [u16],
    state: &mut [u8],
    first: &mut u64,
    second: &mut u64,
) -> u32 {
    match which {
        21 => kulabismuth::kb_ask(image, state, y, x, first, second),
        _ => commit_call(x, y, image, list, state, first, second),
    }
}

// The calls by number; 19 joins the tasks of `image` and `list` into `other`, 20 shows the closure of the clauses `list` and of operator
// `x` in the marks `small`.
fn call(
    which: u16,
    x: u16,
    y: u16,
    image: &[u16],
    list: &mut [u16],
    other: &mut [u16],
    small: &mut [u8],
    first: &mut u64,
    second: &mut u64,
) -> u32 {
    match which {
        0..=4 => task_call(which, x, image, list, small, first, second),
        5..=9 => clause_call(which, x, y, image, list, other, small, first, second),
        10..=16 => fdr_call(which, x, image, list, other, small, first, second),
        17 | 18 => dimacs_call(which, image, list, small, first, second),
        19 => kulabismuth::kb_join(image, list, other, first, second),
        20 => kulabismuth::kb_closure(image, list, x, small, first, second),
        _ => ticket_call(which, x, y, image, list, small, first, second),
    }
}

// ---- The cases

// Loads the lists of the case at word `at`, and runs it.
fn run_lists<W: Write>(
    out: &mut W,
    words: &[u16],
    at: usize,
    image: &mut [u16],
    list: &mut [u16],
    other: &mut [u16],
    small: &mut [u8],
) -> io::Result<()>
    requires { at ≤ most_input }
{
    input::load(words, at, image, list, other, small);
    let which = input::word(words, at);
    let x = input::word(words, at + 1);
    let y = input::word(words, at + 2);
    let mut first: u64 = 0;
    let mut second: u64 = 0;
    let number = call(
        which,
        x,
        y,
        image,
        list,
        other,
        small,
        &mut first,
        &mut second,
    );
    field(out, number.into())?;
    field(out, first)?;
    field(out, second)?;
    write_lent(out, which, list, other, small)?;
    end_line(out)
}

// Runs the case at word `at`.
fn run_case<W: Write>(out: &mut W, words: &[u16], at: usize) -> io::Result<()>
    requires { at ≤ most_input }
{
    let a = input::list_length(words, at, 0);
    let b = input::list_length(words, at, 1);
    let c = input::list_length(words, at, 2);
    let d = input::bytes_length(words, at);
    let mut image = input::words_room();
    let mut list = input::words_room();
    let mut other = input::words_room();
    let mut small = input::bytes_room();
    run_lists(
        out,
        words,
        at,
        &mut image[..a],
        &mut list[..b],
        &mut other[..c],
        &mut small[..d],
    )
}

fn run_cases<W: Write>(out: &mut W, words: &[u16]) -> io::Result<()>
    requires { length words.now ≤ most_input }
{
    let mut at: usize = 0;
    while at < words.len() {
        run_case(out, words, at)?;
        at = input::end(words, at);
    }
    Ok(())
}

fn run_bytes<W: Write>(out: &mut W, bytes: &[u8]) -> io::Result<()>
    requires { length bytes.now ≤ 2 * most_input }
{
    let mut words = input::input_room();
    let count = writing::words_of(bytes, &mut words);
    run_cases(out, &words[..count])
}

// Runs the cases of standard input, and writes what each answers to standard output.
pub fn run<R: Input + Print>(rt: &R) -> io::Result<()> {
    let mut bytes = input::input_bytes_room();
    let got = streams::read_full(&mut rt.reader(), &mut bytes)?;
    run_bytes(&mut io::writer(rt), &bytes[..got])
}
