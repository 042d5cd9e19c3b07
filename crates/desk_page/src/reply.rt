//! The answer to who asks for the page.

ghost use Rattle.std.specs.Prelude.{◌≡◌, IfOk};
ghost use Rattle.desk_page.specs.Page as the;

use crate::markup::{END, FRONT};
use crate::script::SCRIPT;
use front_http::lined_text;
use host_base::{Bytes, Memory};
use std::alloc::Global;

// Its header lines. The sums are those of what stands in the page's `script` and in its `style`.
const LINES: &str = "Content-Type: text/html; charset=utf-8\r\n\
    Content-Security-Policy: default-src 'none'; connect-src 'self'; img-src data:; base-uri 'none'; form-action 'none'; \
    frame-ancestors 'none'; \
    script-src 'sha256-i9YLke9drxhdPHbWvZ9NY87YB0KMYSqN1oOR127/PN4='; \
    style-src 'sha256-v65AZhQKpSYNOOpWB19OSNRhqDH4TQPWQwmZvrxlqxA='\r\n\
    Cache-Control: no-cache\r\n\
    Referrer-Policy: no-referrer\r\n\
    X-Content-Type-Options: nosniff\r\n";

#[tactic(auto, unfolding(crate::specs::Page::lines))]
fn lines() -> &'static str
    ensures { result.now ≡ the.lines }
{
    LINES
}

#[tactic(auto, unfolding(crate::specs::Page::front))]
fn front() -> &'static str
    ensures { result.now ≡ the.front }
{
    FRONT
}

#[tactic(auto, unfolding(crate::specs::Page::script))]
fn script() -> &'static str
    ensures { result.now ≡ the.script }
{
    SCRIPT
}

#[tactic(auto, unfolding(crate::specs::Page::end))]
fn end() -> &'static str
    ensures { result.now ≡ the.end }
{
    END
}

// The page.
#[tactic(auto, unfolding(crate::specs::Page::page))]
fn page(alloc: Global) -> Result<Bytes, Memory>
    ensures { IfOk result (λ page. page ≡ the.page) }
{
    let mut page = Bytes::empty(alloc);
    page.put(front().as_bytes())?;
    page.put(script().as_bytes())?;
    page.put(end().as_bytes())?;
    Ok(page)
}

/// The answer to whoever asks for the page, or for its head alone.
#[tactic(auto, unfolding(crate::specs::Page::desk_page_text))]
pub fn desk_page_reply(alloc: Global, head_only: bool) -> Result<Bytes, Memory>
    ensures { IfOk result (λ text. text ≡ the.desk_page_text head_only) }
{
    let page = page(alloc)?;
    let text = lined_text(alloc, 200, lines(), page.as_slice(), head_only)?;
    Ok(Bytes::new(text))
}
