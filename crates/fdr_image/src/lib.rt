// Reading of a re-encoded image (question 17), and access to the parts of an image that reads as a re-encoded task.
#![tactic(auto)]

ghost use Rattle.std.specs.Prelude.{◌≡◌, true, ◌+◌, ◌≤◌, ◌<◌, length, get_or};
ghost use Rattle.definitions.specs.Answer.{verdict};
ghost use Rattle.definitions.specs.Literal.{most_atoms};
ghost use Rattle.definitions.specs.Image.{most_operators, directory};
ghost use Rattle.definitions.specs.Fdr.{domain_at};
ghost use Rattle.definitions.specs.FdrImage.{domains_in, places_in, literals_in, read_fdr};
ghost use Rattle.definitions.specs.FdrStep.{is_fdr_state};
ghost use Rattle.answer.specs.Answer.{verdict_answer};
ghost use Rattle.fdr_image.specs.Reads.{fdr_of, ReadsFdr};
ghost use Rattle.fdr_image.specs.Walk.{place, counts_right, goal_right, operators_right, rules_right, rest_right, parts_right, fdr_right};
ghost use Rattle.fdr_image.specs.Post.{Laid, LaidOver, BlockGiven};

use answer::{Question, Refusal, ask};

pub mod domain; // domain.rt: the domains of the variables, and values in them
pub mod atom; // atom.rt: the atoms
pub mod block; // block.rt: whether a block is right, and the places of its parts
pub mod rows; // rows.rt: the precondition and the rows of a block

// The most words of a re-encoded image.
pub const MOST_WORDS: usize = 32768;

// Whether the image has not too many words, 1 to the most variables, and not too many operators.
fn are_counts(image: &[u16]) -> bool
    requires { 2 ≤ length image.now }
    ensures { result ≡ counts_right image.now }
{
    image.len() <= MOST_WORDS
        && (1..=literal::MOST_ATOMS).contains(&literal::wide(image[0]))
        && literal::wide(image[1]) <= directory::MOST_OPERATORS
}

fn is_goal(domains: &[u16], goal: &[u16]) -> bool
    ensures { result ≡ goal_right (domains_in domains.now) goal.now }
{
    goal.len() % 2 == 0 && domain::are_literals(domains, goal)
}

// Whether the blocks of the operators are right.
fn are_operators(image: &[u16], domains: &[u16], operators: usize) -> bool
    requires { (operators ≤ most_operators) × (directory image.now (operators + 4) ≡ true) }
    ensures { result ≡ operators_right (domains_in domains.now) image.now operators }
{
    (0..operators).all(|i| block::is_block(domains, directory::part(image, i + 4)))
}

// Whether the goal and the operators are right over the domains.
fn are_rules(image: &[u16], domains: &[u16]) -> bool
    requires { LaidOver domains.now image.now }
    ensures { result ≡ rules_right (domains_in domains.now) image.now }
{
    is_goal(domains, directory::part(image, 3))
        && are_operators(image, domains, literal::wide(image[1]))
}

// Whether all parts but the domains are right over them.
fn is_rest(image: &[u16], domains: &[u16]) -> bool
    requires { LaidOver domains.now image.now }
    ensures { result ≡ rest_right (domains_in domains.now) image.now }
{
    domain::are_values(domains, directory::part(image, 2))
        && atom::are_atoms(domains, directory::part(image, 1))
        && are_rules(image, domains)
}

// Whether the parts of an image with a right directory are right.
fn are_parts(image: &[u16]) -> bool
    requires { Laid image.now }
    ensures { result ≡ parts_right image.now }
{
    let domains = directory::part(image, 0);
    domain::are_domains(domains, literal::wide(image[0])) && is_rest(image, domains)
}

// Whether the image is a re-encoded one.
fn is_right(image: &[u16]) -> bool
    ensures { result ≡ fdr_right image.now }
{
    image.len() >= 2
        && are_counts(image)
        && directory::is_directory(image, literal::wide(image[1]) + 4)
        && are_parts(image)
}

// Reads an image: question 17.
pub fn read(image: &[u16]) -> Result<(), Refusal>
    ensures { verdict_answer result ≡ verdict (read_fdr image.now) }
{
    ask(Question::FdrImage, is_right(image))
}

// The number of variables of an image that reads as a re-encoded task.
pub fn variables(image: &[u16]) -> usize
    requires { ReadsFdr image.now }
    ensures { (result ≡ length (fdr_of image.now).domains) × (result ≤ most_atoms) }
{
    literal::wide(image[0])
}

// The number of operators of an image that reads as a re-encoded task.
pub fn operators(image: &[u16]) -> usize
    requires { ReadsFdr image.now }
    ensures { (result ≡ length (fdr_of image.now).operators) × (result ≤ most_operators) }
{
    literal::wide(image[1])
}

// The domains, as words: for each variable the number of its values and whether none is among them.
pub fn domains(image: &[u16]) -> &[u16]
    requires { ReadsFdr image.now }
    ensures { domains_in result.now ≡ (fdr_of image.now).domains }
{
    directory::part(image, 0)
}

// The atoms, as words: for each its variable and its value.
pub fn places(image: &[u16]) -> &[u16]
    requires { ReadsFdr image.now }
    ensures { places_in result.now ≡ (fdr_of image.now).atoms }
{
    directory::part(image, 1)
}

// The initial values.
pub fn initial(image: &[u16]) -> &[u16]
    requires { ReadsFdr image.now }
    ensures { result.now ≡ (fdr_of image.now).initial }
{
    directory::part(image, 2)
}

// The goal's literals, as words.
pub fn goal(image: &[u16]) -> &[u16]
    requires { ReadsFdr image.now }
    ensures { literals_in result.now ≡ (fdr_of image.now).goal }
{
    directory::part(image, 3)
}

// The block of operator `i`, as a part of the image.
pub fn operator_block(image: &[u16], i: usize) -> &[u16]
    requires { ReadsFdr image.now × (i < length (fdr_of image.now).operators) }
    ensures { BlockGiven result.now (fdr_of image.now) i }
{
    directory::part(image, i + 4)
}

// The number of atoms of an image that reads as a re-encoded task.
pub fn atoms(image: &[u16]) -> usize
    requires { ReadsFdr image.now }
    ensures { (result ≡ length (fdr_of image.now).atoms) × (result ≤ most_atoms) }
{
    places(image).len() / 2
}

// The variable of an atom.
pub fn atom_variable(image: &[u16], atom: usize) -> usize
    requires { ReadsFdr image.now × (atom < length (fdr_of image.now).atoms) }
    ensures { (result ≡ (get_or (fdr_of image.now).atoms atom (place 0 0)).variable) × (result < length (fdr_of image.now).domains) }
{
    atom::variable(places(image), atom)
}

// The value of an atom.
pub fn atom_value(image: &[u16], atom: usize) -> usize
    requires { ReadsFdr image.now × (atom < length (fdr_of image.now).atoms) }
    ensures { (result ≡ (get_or (fdr_of image.now).atoms atom (place 0 0)).value) × (result < 65536) }
{
    atom::value(places(image), atom)
}

// The number of values of a variable, none included if it is one.
pub fn domain_size(image: &[u16], variable: usize) -> usize
    requires { ReadsFdr image.now × (variable < length (fdr_of image.now).domains) }
    ensures { (result ≡ (domain_at (fdr_of image.now) variable).values) × (result < 65536) }
{
    domain::size(domains(image), variable)
}

// Whether none is a value of a variable: 1 if so, else 0.
pub fn none_flag(image: &[u16], variable: usize) -> usize
    requires { ReadsFdr image.now × (variable < length (fdr_of image.now).domains) }
    ensures { result ≡ (domain_at (fdr_of image.now) variable).none }
{
    domain::none_flag(domains(image), variable)
}

// Whether a state has a value for each variable.
pub fn is_state(image: &[u16], state: &[u16]) -> bool
    requires { ReadsFdr image.now }
    ensures { result ≡ is_fdr_state (fdr_of image.now) state.now }
{
    domain::are_values(domains(image), state)
}
