use crate::place::Place;

/// A question in the line, and the place that its outcome goes to.
#[derive(Drop)]
pub struct Ask<T> {
    pub place: Place,
    pub question: T,
}
