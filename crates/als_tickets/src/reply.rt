use als_seats::Place;

/// A question, the place of its outcome, and what was told.
pub struct Reply<T, A> {
    pub place: Place,
    pub question: T,
    pub answer: A,
}
