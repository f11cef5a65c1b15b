/// What becomes of a question.
#[derive(Drop)]
pub enum Outcome<A> {
    Answered(A),
    /// The leader did not take it and never will.
    NotBegun,
    /// The leader took it, and ended without an answer.
    Lost,
}
