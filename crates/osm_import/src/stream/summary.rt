//! What a stream's blobs were answered with.

ghost use Rattle.std.specs.Prelude.{◌≡◌, ℕ, List, [], ◌∷◌, ◌++◌};
ghost use Rattle.osm_import.specs.declared.answer.Answer.{Answer as AnswerValue};

use crate::answer::Answer;

/// How many blobs of a stream were stored, were held already, were bad and were refused, and where it came to.
#[derive(Clone, Copy, Debug, PartialEq, Eq)]
pub struct Summary {
    pub stored: u64,
    pub held: u64,
    pub bad: u64,
    pub refused: u64,
    /// The offset behind the last blob, in bytes; that of the stream's start where there was none.
    pub next: u64,
}

impl Summary {
    ghost use Rattle.osm_import.specs.Streams.{summary_of, HasRoom};

    /// Counts a blob that ends at this offset: the summary of some answers becomes that of these and one more.
    pub(super) fn add(&mut self, answer: &Answer, fin: u64)
        requires { HasRoom self.old }
        ensures { (answers : List AnswerValue) (at : ℕ) → self.old ≡ summary_of answers at → self.new ≡ summary_of (answers ++ answer.now ∷ []) fin }
    {
        match answer {
            Answer::Stored(_) => self.stored += 1,
            Answer::AlreadyHeld => self.held += 1,
            Answer::Bad(_) => self.bad += 1,
            Answer::Refused(_) => self.refused += 1,
            Answer::Fault(_) => {}
        }
        self.next = fin;
    }
}
