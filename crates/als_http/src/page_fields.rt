ghost use Rattle.std.specs.Prelude.{◌≡◌, OnOk, ◌++◌, ◌∷◌, [], codes};
ghost use Rattle.http_server.specs.Response.{fields_of};
ghost use Rattle.als_console.specs.Texts.{type_of as type_of_text, policy};
ghost use Rattle.als_http.specs.Replies.{page_fields, policy_field, options_field, referrer_field};

use als_console::{POLICY, Text};
use http::{HeaderName, HeaderValue};
use http_server::Response;
use std::alloc::AllocError;

/// The content type of a text of the page.
pub(crate) fn console_type(text: Text) -> HeaderValue
    ensures { result.bytes ≡ type_of_text text }
{
    HeaderValue::from_static(text.content_type())
}

/// Adds the fields of the page: what a browser may load, that it must not guess types, and that it sends
/// no referrer.
pub(crate) fn add_page_fields(response: &mut Response) -> Result<(), AllocError>
    ensures fields { OnOk result
        (fields_of response.new ≡ fields_of response.old ++ page_fields) }
    ensures body { OnOk result (response.new.body ≡ response.old.body) }
{
    add_policy(response)?;
    add_options(response)?;
    add_referrer(response)?;
    Ok(())
}

/// Adds what a browser may load for the page.
fn add_policy(response: &mut Response) -> Result<(), AllocError>
    ensures fields { OnOk result
        (fields_of response.new ≡ fields_of response.old ++ policy_field ∷ []) }
    ensures body { OnOk result (response.new.body ≡ response.old.body) }
{
    let policy = page_policy();
    response.add_header(HeaderName::from_static("content-security-policy"), policy)?;
    Ok(())
}

/// Adds that a browser must not guess the type of a text.
fn add_options(response: &mut Response) -> Result<(), AllocError>
    ensures fields { OnOk result
        (fields_of response.new ≡ fields_of response.old ++ options_field ∷ []) }
    ensures body { OnOk result (response.new.body ≡ response.old.body) }
{
    let options = HeaderValue::from_static("nosniff");
    response.add_header(HeaderName::from_static("x-content-type-options"), options)?;
    Ok(())
}

/// Adds that a browser sends no referrer.
fn add_referrer(response: &mut Response) -> Result<(), AllocError>
    ensures fields { OnOk result
        (fields_of response.new ≡ fields_of response.old ++ referrer_field ∷ []) }
    ensures body { OnOk result (response.new.body ≡ response.old.body) }
{
    let policy = no_referrer();
    response.add_header(HeaderName::from_static("referrer-policy"), policy)?;
    Ok(())
}

/// What a browser may load for the page.
#[tactic(auto, unfolding(als_console::specs::Texts::policy))]
fn page_policy() -> HeaderValue
    ensures { result.bytes ≡ policy }
{
    HeaderValue::from_static(POLICY)
}

/// No referrer.
fn no_referrer() -> HeaderValue
    ensures { result.bytes ≡ codes "no-referrer" }
{
    HeaderValue::from_static("no-referrer")
}
