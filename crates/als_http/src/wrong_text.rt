ghost use Rattle.std.specs.Prelude.{◌≡◌, IfOk};
ghost use Rattle.json.specs.Print.{print};
ghost use Rattle.als_report.specs.Texts.{error_tokens};
ghost use Rattle.als_http.specs.Replies.{why_wrong};

use crate::query::Wrong;
use als_report::error_text;
use std::alloc::{AllocError, Global};

/// Why a request is refused, as JSON.
pub(crate) fn wrong_text(alloc: Global, why: Wrong) -> Result<Vec<u8>, AllocError>
    ensures { IfOk result (λ text. text.items ≡ print (error_tokens (why_wrong why))) }
{
    error_text(alloc, why_wrong(why))
}

/// Why a request is refused, in words.
fn why_wrong(why: Wrong) -> &'static str
    ensures { result.now ≡ why_wrong why }
{
    match why {
        Wrong::Path =>
            "no such path: /, /keys/P/S, /keys/P, /read, /status, /metrics, /health, /primary, /standby, and /in-doubt of a primary",
        Wrong::Method =>
            "GET and HEAD are answered, POST of /read, and POST of /commit, /prepare and /decide by a primary",
        Wrong::Read => "keys that a body names are read by POST",
        Wrong::Number => "a page and a slot are decimal numbers below 2^32",
        Wrong::Body => "a body names keys: {\"keys\":[[P,S],..]}, at most 600 of them",
        Wrong::Lsn => "Als-At-Least is one decimal number below 2^64",
        Wrong::Wait => "Als-Wait is one decimal number of seconds, at most 60",
        Wrong::Host => "this node has no such host: localhost, 127.0.0.1, [::1]",
    }
}
