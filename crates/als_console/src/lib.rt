//! The page at `/` of a node: three texts, with their types and the policy that a browser keeps.
#![tactic(auto)]

// The page itself.
mod page;
// What a browser may load for it.
mod policy;
// What it does.
mod script;
// How it looks.
mod style;
// Which text it is.
mod text;

pub use policy::POLICY;
pub use text::Text;
