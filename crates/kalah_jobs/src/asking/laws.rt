//! The law of lines answered one by one.
ghost use Rattle.kalah_jobs.specs.Asking.{AnswersAreThoseOfAFile};

/// What `answer_lines` writes for some bytes is what a batch writes for a file with these bytes, without what stands before each
/// answer. If the bytes are cut between two lines, the answers are those to the two parts in sequence.
#[tactic(auto, using(crate::proofs::AskingLemmas::answers_are_those_of_a_file))]
pub fn answers_are_those_of_a_file()
    ensures { AnswersAreThoseOfAFile }
{}
