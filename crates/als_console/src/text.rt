ghost use Rattle.std.specs.Prelude.{◌≡◌};
ghost use Rattle.als_console.specs.Texts.{text_of, type_of};

use crate::page::PAGE;
use crate::script::SCRIPT;
use crate::style::STYLE;

/// One of the texts of the page.
#[derive(Clone, Copy, Debug, PartialEq, Eq)]
pub enum Text {
    /// `/`, the page itself.
    Page,
    /// `/page.js`, what it does.
    Script,
    /// `/page.css`, how it looks.
    Style,
}

impl Text {
    /// The text, to the byte.
    #[tactic(auto, unfolding(crate::specs::Texts::text_of))]
    pub fn text(self) -> &'static str
        ensures { result.now ≡ text_of self }
    {
        match self {
            Text::Page => PAGE,
            Text::Script => SCRIPT,
            Text::Style => STYLE,
        }
    }

    /// What the text is, for `Content-Type`.
    pub fn content_type(self) -> &'static str
        ensures { result.now ≡ type_of self }
    {
        match self {
            Text::Page => "text/html; charset=utf-8",
            Text::Script => "text/javascript; charset=utf-8",
            Text::Style => "text/css; charset=utf-8",
        }
    }
}
