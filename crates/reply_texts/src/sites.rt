//! The answers of the site's own capabilities.

ghost use Rattle.std.specs.Prelude.{◌≡◌, IfOk};
ghost use Rattle.reply_texts.specs.Texts.{site_text};

use front_http::reply_text;
use host_base::{Bytes, Memory};
use std::alloc::Global;

/// The answer of one of the site's own capabilities: the text that its driver gave, as plain text.
pub fn site_reply(alloc: Global, text: &[u8], head_only: bool) -> Result<Bytes, Memory>
    ensures { IfOk result (λ bytes. bytes ≡ site_text text.now head_only) }
{
    let reply = reply_text(alloc, 200, true, text, head_only)?;
    Ok(Bytes::new(reply))
}
