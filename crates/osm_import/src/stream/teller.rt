//! Which answered blobs are told by a line.

ghost use Rattle.std.specs.Prelude.{◌≡◌, Bool};
ghost use Rattle.osm_import.specs.Lines.{is_told};
ghost use Rattle.osm_import.specs.declared.answer.Answer.{Answer as AnswerValue};

use crate::answer::Answer;

/// Who is asked, once for each answered blob, whether its line is written.
pub trait Teller {
    /// Whether the line of a blob with this answer is written.
    ghost tells: { Self → AnswerValue → Bool };

    /// Whether the line of a blob with this answer is written.
    fn tells(&self, answer: &Answer) -> bool
        ensures { result ≡ tells self.now answer.now };
}

/// Which answers are told.
#[derive(Clone, Copy, Debug, PartialEq, Eq)]
pub enum Told {
    /// All.
    All,
    /// Those of blobs that are bad or refused.
    Faults,
}

impl Teller for Told {
    ghost tells = { is_told };

    fn tells(&self, answer: &Answer) -> bool {
        match self {
            Told::All => true,
            Told::Faults => !matches!(answer, Answer::Stored(_) | Answer::AlreadyHeld),
        }
    }
}
