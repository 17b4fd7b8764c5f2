// The answers of the calls: a finding, or a refusal with its question and places.
#![tactic(auto)]

ghost use Rattle.std.specs.Prelude.{◌≡◌};
ghost use Rattle.definitions.specs.Answer.{finding, ask, ask_at};
ghost use Rattle.definitions.specs.StepLists.{refused_after};
ghost use Rattle.answer.specs.Answer.{placed, refusal_at, verdict_answer, test_answer};
ghost use Rattle.answer.specs.Question.{number_of};

// A question of documents 01 and 02.
#[derive(Clone, Copy, Debug, PartialEq, Eq)]
pub enum Question {
    ImageSize,
    Counts,
    Directory,
    Initial,
    Goal,
    BlockCounts,
    BlockLiterals,
    ClauseWords,
    ClauseRow,
    ClauseFalse,
    ClauseNotKept,
    Limits,
    Buffers,
    OutOfRows,
    OutOfRounds,
    Target,
    FdrImage,
    State,
    OperatorNumber,
    Precondition,
    Conflict,
    OmittedNone,
    NotCodable,
    TextForm,
    TextClause,
    TextRoom,
    JoinRoom,
    Ticket,
}

impl Question {
    // The number of the question in the documents.
    pub fn number(self) -> u16
        ensures { result ≡ number_of self }
    {
        match self {
            Question::ImageSize => 1,
            Question::Counts => 2,
            Question::Directory => 3,
            Question::Initial => 4,
            Question::Goal => 5,
            Question::BlockCounts => 6,
            Question::BlockLiterals => 7,
            Question::ClauseWords => 8,
            Question::ClauseRow => 9,
            Question::ClauseFalse => 10,
            Question::ClauseNotKept => 11,
            Question::Limits => 12,
            Question::Buffers => 13,
            Question::OutOfRows => 14,
            Question::OutOfRounds => 15,
            Question::Target => 16,
            Question::FdrImage => 17,
            Question::State => 18,
            Question::OperatorNumber => 19,
            Question::Precondition => 20,
            Question::Conflict => 21,
            Question::OmittedNone => 22,
            Question::NotCodable => 23,
            Question::TextForm => 24,
            Question::TextClause => 25,
            Question::TextRoom => 26,
            Question::JoinRoom => 27,
            Question::Ticket => 28,
        }
    }
}

// A refusal: the question that was answered no, and two places, zero unless named.
#[derive(Clone, Copy, Debug, PartialEq, Eq)]
pub struct Refusal {
    pub question: Question,
    pub first: usize,
    pub second: usize,
}

impl Refusal {
    // The refusal of a question at a first place.
    pub fn at(question: Question, first: usize) -> Refusal
        ensures { placed result ≡ refusal_at (number_of question) first 0 }
    {
        Refusal {
            question,
            first,
            second: 0,
        }
    }

    // The refusal of a step of a list, after so many steps.
    pub fn after(self, steps: usize) -> Refusal
        ensures { placed result ≡ refused_after steps (placed self) }
    {
        Refusal {
            first: steps,
            ..self
        }
    }
}

// The refusal of a question, with both places zero.
impl From<Question> for Refusal {
    ghost from_gives = { λ question refusal. placed refusal ≡ refusal_at (number_of question) 0 0 };

    fn from(question: Question) -> Refusal {
        Refusal::at(question, 0)
    }
}

// The answer of a test that was not refused.
pub fn whether(holds: bool) -> Result<bool, Refusal>
    ensures { test_answer result ≡ finding holds }
{
    Ok(holds)
}

// Asks a question that is answered by `holds`.
pub fn ask(question: Question, holds: bool) -> Result<(), Refusal>
    ensures { verdict_answer result ≡ ask (number_of question) holds }
{
    ask_at(question, 0, holds)
}

// Asks a question at a first place.
pub fn ask_at(question: Question, first: usize, holds: bool) -> Result<(), Refusal>
    ensures { verdict_answer result ≡ ask_at (number_of question) first holds }
{
    if holds {
        Ok(())
    } else {
        Err(Refusal::at(question, first))
    }
}
