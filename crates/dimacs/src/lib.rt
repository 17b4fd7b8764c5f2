// Clauses to and from DIMACS texts.
#![tactic(auto)]

ghost use Rattle.std.specs.Prelude.{◌≡◌, length};
ghost use Rattle.definitions.specs.Answer.{outcome};
ghost use Rattle.definitions.specs.Groups.{written};
ghost use Rattle.definitions.specs.Dimacs.{write_dimacs, read_dimacs};
ghost use Rattle.answer.specs.Answer.{count_answer};
ghost use Rattle.clause.specs.Rows.{clauses_of, ClausesRead};
ghost use Rattle.dimacs.specs.Write.{text_answer};

use answer::{Question, Refusal, ask};

pub mod line; // line.rt: the lines of a text, written
pub mod rows; // rows.rt: questions 24 to 26 of a text, and its rows
pub mod size; // size.rt: the number of bytes of a text

// Question 26, and the text written, of clauses that are read.
fn write_read(clauses: &[u16], atoms: usize, text: &mut [u8]) -> Result<usize, Refusal>
    requires { ClausesRead atoms clauses.now }
    ensures { outcome (count_answer result) text.new ≡ written text.old (text_answer atoms (clauses_of clauses.now) (length text.old)) }
{
    let size = size::text_length(clauses, atoms);
    ask(Question::TextRoom, size <= text.len())?;
    line::write_text(text, clauses, atoms);
    Ok(size)
}

// Writes the clauses as a DIMACS text: questions 1 to 9, then 26.
pub fn write(image: &[u16], clauses: &[u16], text: &mut [u8]) -> Result<usize, Refusal>
    ensures { outcome (count_answer result) text.new ≡ written text.old (write_dimacs image.now clauses.now (length text.old)) }
{
    reading::read(image, clauses)?;
    write_read(clauses, task::atoms(image), text)
}

// Reads a DIMACS text into clause rows: questions 1 to 7, then 24 to 26.
pub fn read(image: &[u16], text: &[u8], clauses: &mut [u16]) -> Result<usize, Refusal>
    ensures { outcome (count_answer result) clauses.new ≡ written clauses.old (read_dimacs image.now text.now (length clauses.old)) }
{
    task::read(image)?;
    rows::read_form(text, task::atoms(image), clauses)
}
