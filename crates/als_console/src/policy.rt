/// What a browser may load for the page: scripts, styles and answers of the node itself. Nothing stands in
/// the page that runs or styles it, no other page frames it, and it sends no form.
pub const POLICY: &str =
    "default-src 'none'; script-src 'self'; style-src 'self'; connect-src 'self'; \
    base-uri 'none'; form-action 'none'; frame-ancestors 'none'";
