use crate::answer::Answer;
use crate::asked::Asked;

/// What a client asked for, with its answer.
#[derive(Drop)]
pub struct Told {
    pub asked: Asked,
    pub answer: Answer,
}
