use crate::noted::Noted;
use als_past::Past;

/// Records, one after another, for clauses alone.
#[derive(Drop)]
pub(crate) enum Records {
    Start,
    Then(Past<Records>, Past<Noted>),
}
