//! What holds of all notes.

ghost use Rattle.run_notes.specs.AnswerLaws.{AnswersAreFound};

/// Where the lines of a section are read as answers, the line that a note names for an index says
/// the answer of that index.
pub fn answers_are_found()
    ensures found { AnswersAreFound }
{}
