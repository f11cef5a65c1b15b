use http_server::Config;
use std::hash::RandomState;

/// What the connections of a listener have in common.
#[derive(Clone, Copy)]
pub struct Terms {
    /// Keys of the maps of header fields.
    pub keys: RandomState,
    /// The limits of a connection.
    pub config: Config,
    /// Whether the service may wait in a request by another method than GET and HEAD.
    pub may_wait: bool,
}
