// The directory of the joined image: the lengths of its parts, and their pairs.
ghost use Rattle.std.specs.Prelude.{◌≡◌, map, ◌+◌, ◌≤◌, length};
ghost use Rattle.definitions.specs.Image.{operator_size};
ghost use Rattle.task.specs.Reads.{task_of, Reads};
ghost use Rattle.writing.specs.Writing.{Wrote};
ghost use Rattle.joining.specs.Parts.{list_lengths, lengths_of, header_of, Joinable};

// The most parts of a task image: two, and one for each operator.
const MOST_PARTS: usize = 2 + task::MOST_OPERATORS;

// Writes the lengths of the operators' blocks.
fn block_lengths(image: &[u16], lengths: &mut [u16], at: usize) -> usize
    requires { (Reads image.now) × (at + length (task_of image.now).operators ≤ length lengths.old) }
    ensures { Wrote lengths.old at (map operator_size (task_of image.now).operators) lengths.new result }
{
    let mut to = at;
    for i in 0..task::operators(image) {
        let block = task::operator_block(image, i);
        lengths[to] = block.len() as u16;
        to += 1;
    }
    to
}

// Writes the lengths of the initial list and of the goal.
fn list_lengths(left: &[u16], right: &[u16], lengths: &mut [u16]) -> usize
    requires { (Reads left.now) × (Reads right.now) × (2 ≤ length lengths.old) }
    ensures { Wrote lengths.old 0 (list_lengths (task_of left.now) (task_of right.now)) lengths.new result }
{
    let initial = task::initial(left).len() + task::initial(right).len();
    let goal = task::goal(left).len() + task::goal(right).len();
    writing::directory::pair(initial, goal, lengths, 0)
}

// Writes the lengths of all parts.
fn part_lengths(left: &[u16], right: &[u16], lengths: &mut [u16]) -> usize
    requires { (Reads left.now) × (Reads right.now) × (length (lengths_of (task_of left.now) (task_of right.now)) ≤ length lengths.old) }
    ensures { Wrote lengths.old 0 (lengths_of (task_of left.now) (task_of right.now)) lengths.new result }
{
    let first = list_lengths(left, right, lengths);
    let second = block_lengths(left, lengths, first);
    block_lengths(right, lengths, second)
}

// Writes the numbers of atoms and operators, and the pairs of parts of these lengths.
fn directory(left: &[u16], right: &[u16], lengths: &[u16], target: &mut [u16]) -> usize
    requires { (Joinable left.now right.now target.old) × (lengths.now ≡ lengths_of (task_of left.now) (task_of right.now)) }
    ensures { Wrote target.old 0 (header_of (task_of left.now) (task_of right.now)) target.new result }
{
    let atoms = task::atoms(left) + task::atoms(right);
    let operators = task::operators(left) + task::operators(right);
    writing::directory::directory(atoms, operators, lengths, target)
}

// Writes the numbers of atoms and operators, and the pairs of the parts.
pub fn header(left: &[u16], right: &[u16], target: &mut [u16]) -> usize
    requires { Joinable left.now right.now target.old }
    ensures { Wrote target.old 0 (header_of (task_of left.now) (task_of right.now)) target.new result }
{
    let mut lengths = [0u16; MOST_PARTS];
    let count = part_lengths(left, right, &mut lengths);
    directory(left, right, &lengths[..count], target)
}
