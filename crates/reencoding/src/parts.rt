// The parts of the re-encoded image: their lengths, and the operators.
ghost use Rattle.std.specs.Prelude.{◌≡◌, map, ◌+◌, ◌*◌, ◌≤◌, ◌<◌, length};
ghost use Rattle.definitions.specs.Literal.{most_atoms};
ghost use Rattle.definitions.specs.Image.{most_image};
ghost use Rattle.definitions.specs.Step.{operator_at};
ghost use Rattle.task.specs.Reads.{task_of, Reads};
ghost use Rattle.writing.specs.Writing.{Wrote};
ghost use Rattle.reencoding.specs.Words.{atoms_of, Ready};
ghost use Rattle.reencoding.specs.Parts.{words_of, lengths_of, operators_by};

// The most parts of the image: four, and one for each operator.
pub const MOST_PARTS: usize = 4 + task::MOST_OPERATORS;

// The number of words that operator `i` becomes: a block of L words becomes 2L - 2.
fn block_size(image: &[u16], i: usize) -> usize
    requires { (Reads image.now) × (i < length (task_of image.now).operators) }
    ensures { (result ≡ words_of (operator_at (task_of image.now) i)) × (result ≤ 2 * most_image) }
{
    let block = task::operator_block(image, i);
    2 * block.len() - 2
}

// Writes the number of words that each operator becomes.
fn block_lengths(image: &[u16], lengths: &mut [u16], at: usize) -> usize
    requires { (Reads image.now) × (at + length (task_of image.now).operators ≤ length lengths.old) }
    ensures { Wrote lengths.old at (map words_of (task_of image.now).operators) lengths.new result }
{
    let mut to = at;
    for i in 0..task::operators(image) {
        lengths[to] = block_size(image, i) as u16;
        to += 1;
    }
    to
}

// Writes the lengths of the parts, with `count` variables.
pub fn lengths(image: &[u16], count: usize, lengths: &mut [u16]) -> usize
    requires { (Reads image.now) × (count ≤ most_atoms) × (4 + length (task_of image.now).operators ≤ length lengths.old) }
    ensures { Wrote lengths.old 0 (lengths_of count (task_of image.now)) lengths.new result }
{
    let atoms = task::atoms(image);
    let goal = task::goal(image);
    let initial = writing::directory::pair(2 * count, 2 * atoms, lengths, 0);
    let blocks = writing::directory::pair(count, 2 * goal.len(), lengths, initial);
    block_lengths(image, lengths, blocks)
}

// Writes the operators.
pub fn operators(image: &[u16], places: &[u16], target: &mut [u16], at: usize) -> usize
    requires { (Reads image.now) × ((task_of image.now).atoms ≡ atoms_of places.now)
        × (Ready places.now (operators_by places.now (task_of image.now).operators) target.old at) }
    ensures { Wrote target.old at (operators_by places.now (task_of image.now).operators) target.new result }
{
    let mut to = at;
    for i in 0..task::operators(image) {
        to = super::block::operator(task::operator_block(image, i), places, target, to);
    }
    to
}
