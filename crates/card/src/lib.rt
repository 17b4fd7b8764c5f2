// The card's text as bytes.
#![tactic(auto)]

ghost use Rattle.std.specs.Prelude.{◌≡◌, ◌+◌, ◌*◌, ◌≤◌, ◌<◌, length, get_or, drop, ◌++◌};
ghost use Rattle.definitions.specs.Card.{refused_text, card};
ghost use Rattle.definitions.specs.Clauses.{width, most_rows};
ghost use Rattle.answer.specs.Answer.{placed};
ghost use Rattle.writing.specs.Writing.{Wrote};
ghost use Rattle.card.specs.Room.{most_text, most_words, Buffers};
ghost use Rattle.card.specs.Text.{is_input, words_text};

use answer::{Question, Refusal};
use synthesis::Found;

pub mod found; // found.rt: the text of a finding
pub mod group; // group.rt: the lines of groups
pub mod line; // line.rt: literals, and the lines of counts, clauses and refusals

// The most bytes of a text: a line of at most 6 bytes for each literal and one more for each of the most rows; of 5 bytes for
// each atom and 6 for each group; 128 for the lines of numbers, or the line of a refusal.
pub const MOST_TEXT: usize = (6 * clause::WIDTH + 1) * clause::MOST_ROWS
    + 11 * literal::MOST_ATOMS
    + 128;

// The most words of an input: n, limit and the longest image.
const MOST_WORDS: usize = 2 + task::MOST_WORDS;

// The most bytes of an input.
pub const MOST_INPUT: usize = 2 * MOST_WORDS;

// Whether the input has the bytes of n, limit and an image that is not too long.
fn is_input(input: &[u8]) -> bool
    ensures { result ≡ is_input input.now }
{
    input.len() >= 4 && input.len() % 2 == 0 && input.len() <= MOST_INPUT
}

// Writes the text of a refusal.
fn write_refused(out: &mut [u8], f: Refusal) -> usize
    requires { most_text ≤ length out.old }
    ensures { Wrote out.old 0 (refused_text (placed f)) out.new result }
{
    line::write_refusal(out, 0, f)
}

// The number of atoms in the words of an input, zero if they have none.
fn atoms(words: &[u16]) -> usize
    ensures { result ≡ get_or words.now 2 0 }
{
    literal::wide(words.get(2).copied().unwrap_or(0))
}

// Writes the card for the words of an input: n, limit, image.
fn write_words(
    words: &[u16],
    clauses: &mut [u16],
    work: &mut [u16],
    marks: &mut [u8],
    out: &mut [u8],
) -> usize
    requires { (2 ≤ length words.now) × (Buffers clauses.old work.old marks.old out.old) }
    ensures { Wrote out.old 0 (words_text words.now) out.new result }
{
    let count = atoms(words);
    match synthesis::synthesize(&words[2..], words[0], words[1], clauses, work, marks) {
        Ok(Found { rows, rounds }) => {
            let end = clause::WIDTH * rows;
            found::write_found(out, &clauses[..end], rounds, count)
        }
        Err(f) => write_refused(out, f),
    }
}

// Room for the words of an input.
fn word_room() -> [u16; MOST_WORDS]
    ensures { length result ≡ most_words }
{
    [0u16; MOST_WORDS]
}

// Room for the most rows.
fn row_room() -> [u16; clause::WIDTH * clause::MOST_ROWS]
    ensures { length result ≡ width * most_rows }
{
    [0u16; clause::WIDTH * clause::MOST_ROWS]
}

// Writes the card for the words of an input, with room for the synthesis.
fn write_card(words: &[u16], out: &mut [u8]) -> usize
    requires { (2 ≤ length words.now) × (most_text ≤ length out.old) }
    ensures { Wrote out.old 0 (words_text words.now) out.new result }
{
    let mut clauses = row_room();
    let mut work = row_room();
    let mut marks = propagation::marks::room();
    write_words(words, &mut clauses, &mut work, &mut marks, out)
}

// Writes the card for the bytes of an input, and gives its length.
fn write_input(input: &[u8], out: &mut [u8]) -> usize
    requires { most_text ≤ length out.old }
    ensures { Wrote out.old 0 (card input.now) out.new result }
{
    if !is_input(input) {
        return write_refused(out, Refusal::from(Question::ImageSize));
    }
    let mut words = word_room();
    let end = writing::words_of(input, &mut words);
    write_card(&words[..end], out)
}

// Writes the card's text for the bytes of an input (n, limit, image) at the start of `out`, and gives its length.
pub fn card_text(input: &[u8], out: &mut [u8; MOST_TEXT]) -> usize
    ensures { (out.new ≡ card input.now ++ drop result out.old) × (result ≡ length (card input.now)) }
{
    write_input(input, out)
}
