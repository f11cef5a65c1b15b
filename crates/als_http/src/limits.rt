ghost use Rattle.std.specs.Prelude.{◌≡◌};

use http_server::Config;
use http1::Limits;

/// The most threads that serve reads.
pub const THREADS: usize = 8;

/// The most threads that serve a listener, whatever their service.
pub const MOST_THREADS: usize = 258;

/// The most connections of a thread that answers guests. If more come, the first one is closed.
pub(crate) const GUESTS: usize = 64;

/// The most guests in the line of those whose requests may wait. If more come, they are refused.
pub(crate) const LINE: usize = 64;

/// The most bytes of the answer to a guest's read: so many the buffer of its socket takes.
pub(crate) const ANSWER: usize = 32 * 1024;

/// The most bytes of a request's head.
const HEAD: usize = 7 * 1024;

/// The most bytes of the body of a read: those of 600 keys, and some blanks.
const BODY: usize = 16 * 1024;

/// Milliseconds that each of eight threads sleeps if nobody wants to connect. More threads sleep longer, so
/// that together they look as often as eight.
pub(crate) const NAP: u64 = 5;

/// Milliseconds after which a read of a silent peer checks whether it has to end.
pub(crate) const TICK: u64 = 200;

/// Milliseconds between two looks at a peer from which on the node itself stood still: each look is one
/// tick after the last.
pub(crate) const STILL: u64 = 1_000;

/// Milliseconds after which a silent peer is dropped.
pub(crate) const SILENCE: u64 = 10_000;

/// The same, while every thread has a connection.
pub(crate) const CROWDED: u64 = 1_000;

/// Milliseconds within which a request has to be whole.
pub(crate) const REQUEST: u64 = 5_000;

/// Milliseconds within which what a read asked for has to be taken, less the time that the node itself took
/// for it.
pub(crate) const RESPONSE: u64 = 5_000;

/// Milliseconds after which the next answer of a connection is its last one, so that nobody keeps a thread.
pub(crate) const LIFE: u64 = 60_000;

/// The most reads after the last response of a connection. Without them the system could take the response
/// back.
pub(crate) const LEFTOVERS: usize = 16;

/// The limits of a connection for reads: requests of 23 KB, head and body together.
pub fn config() -> Config
    ensures { result.max_body_len ≡ 16384 }
{
    config_with(BODY)
}

/// The limits of a connection with request bodies of at most this many bytes.
pub fn config_with(body: usize) -> Config
    ensures { result.max_body_len ≡ body }
{
    Config {
        limits: Limits {
            max_head_len: HEAD,
            max_extensions_len: 256,
            max_trailers_len: 256,
        },
        max_body_len: body,
        max_pending: 16 * 1024,
        read_size: 1024,
    }
}

/// The most bytes of a request, head and body together.
pub(crate) fn request_len(config: Config) -> usize {
    config.max_body_len.saturating_add(HEAD)
}
