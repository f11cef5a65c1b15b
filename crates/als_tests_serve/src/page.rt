use crate::asking::{Fixed, begins, gives, published};
use als_console::Text;
use als_http::{Answering, Hosts};
use als_report::State;
use std::alloc::Global;
use std::hash::RandomState;
use std::test::*;

/// What is answered for a text of the page, without its end.
fn head(alloc: Global, kind: &str, text: Text) -> Option<String> {
    let length = text.text().len();
    format!(in alloc;
        "HTTP/1.1 200 OK\r\ncontent-type: {kind}; charset=utf-8\r\ncache-control: no-store\r\n\
        content-security-policy: default-src 'none'; script-src 'self'; style-src 'self'; \
        connect-src 'self'; base-uri 'none'; form-action 'none'; frame-ancestors 'none'\r\n\
        x-content-type-options: nosniff\r\nreferrer-policy: no-referrer\r\n\
        content-length: {length}\r\n\r\n"
    )
    .ok()
}

#[test]
fn the_page_is_answered(rt: HostRuntime) -> Result<(), Fail> {
    let alloc = rt.alloc();
    let keys = RandomState::new(&rt)?;
    let (log, mut readers) = published(&rt, alloc, 1).ok_or("memory")?;
    let reader = readers.pop().ok_or("a reader")?;
    let mut answering = Answering::new(alloc, reader, Fixed(State::Following, None));
    let table = [
        ("/", "text/html", Text::Page),
        ("/page.js", "text/javascript", Text::Script),
        ("/page.css", "text/css", Text::Style),
    ];
    for (path, kind, text) in table {
        let mut whole = head(alloc, kind, text).ok_or("memory")?;
        let request = format!(in alloc; "HEAD {path} HTTP/1.1\r\nHost: a\r\n\r\n")?;
        assert!(rt;
            gives(
                alloc,
                keys,
                &mut answering,
                request.as_str(),
                whole.as_str()
            ),
            "{path}"
        );
        whole.push_str(text.text())?;
        let request = format!(in alloc; "GET {path} HTTP/1.1\r\nHost: a\r\n\r\n")?;
        assert!(rt;
            gives(
                alloc,
                keys,
                &mut answering,
                request.as_str(),
                whole.as_str()
            ),
            "{path}"
        );
    }
    log.close(&rt);
    Ok(())
}

#[test]
fn the_page_is_of_the_node_alone(rt: HostRuntime) -> Result<(), Fail> {
    let alloc = rt.alloc();
    let keys = RandomState::new(&rt)?;
    let (log, mut readers) = published(&rt, alloc, 1).ok_or("memory")?;
    let reader = readers.pop().ok_or("a reader")?;
    let mut answering = Answering::new(alloc, reader, Fixed(State::Following, None));
    answering.answer_for(Hosts::Loopback);
    let request = "GET / HTTP/1.1\r\nHost: evil.example\r\n\r\n";
    assert!(rt; begins(alloc, keys, &mut answering, request, "HTTP/1.1 421 "));
    // Nothing in it comes from elsewhere, and nothing stands in it that its policy forbids.
    for text in [Text::Page, Text::Script, Text::Style] {
        for word in [
            "https:", "http://1", "http://l", "<style", "<script>", "style=", "onclick",
        ] {
            assert!(rt; !text.text().contains(word), "{word}");
        }
    }
    let size = (Text::Page.text().len())
        .saturating_add(Text::Script.text().len())
        .saturating_add(Text::Style.text().len());
    assert!(rt; size <= 16_384);
    log.close(&rt);
    Ok(())
}
