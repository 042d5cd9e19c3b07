//! The answers to the question what may be chosen.

ghost use Rattle.std.specs.Prelude.{◌≡◌, ◌∷◌, ◌++◌, codes, decimal, flat_map, map, OnOk, IfOk};
ghost use Rattle.std.specs.List.{join_with_byte};
ghost use Rattle.share_graph.specs.declared.desk.Offer.TheVariants.{Grain, Site};
ghost use Rattle.reply_texts.specs.Options as options;

use front_http::reply_text;
use host_base::{Bytes, GrainId, Memory};
use itoa::Buffer;
use powerbox_match::Quality;
use saved_refs::Listed;
use share_graph::Offer;
use std::alloc::Global;

fn quality_name(quality: Quality) -> &'static str
    ensures { result.now ≡ options.quality_name quality }
{
    match quality {
        Quality::Acceptable => "acceptable",
        Quality::Preferred => "preferred",
        Quality::Unacceptable => "unacceptable",
    }
}

fn put_decimal(text: &mut Bytes, number: u64) -> Result<(), Memory>
    ensures { OnOk result (text.new ≡ text.old ++ decimal number) }
{
    let mut buffer = Buffer::new();
    text.put(buffer.format(number).as_bytes())
}

// A comma and the member with the quality.
fn put_quality(text: &mut Bytes, quality: Quality) -> Result<(), Memory>
    ensures { OnOk result (text.new ≡ text.old
        ++ codes ",\"quality\":\"" ++ options.quality_name quality ++ codes "\"") }
{
    text.put(b",\"quality\":\"")?;
    text.put(quality_name(quality).as_bytes())?;
    text.put(b"\"")
}

fn put_grain(text: &mut Bytes, grain: GrainId, quality: Quality) -> Result<(), Memory>
    ensures { OnOk result (text.new ≡ text.old
        ++ options.item_text (record { offer = Grain grain; quality = quality })) }
{
    text.put(b"{\"grain\":")?;
    put_decimal(text, u64::from(grain.0))?;
    put_quality(text, quality)?;
    text.put(b"}")
}

fn put_site(text: &mut Bytes, tag: u64, item: u32, quality: Quality) -> Result<(), Memory>
    ensures { OnOk result (text.new ≡ text.old
        ++ options.item_text (record { offer = Site tag item; quality = quality })) }
{
    text.put(b"{\"item\":")?;
    put_decimal(text, u64::from(item))?;
    put_quality(text, quality)?;
    text.put(b",\"site\":")?;
    put_decimal(text, tag)?;
    text.put(b"}")
}

fn put_item(text: &mut Bytes, listed: &Listed) -> Result<(), Memory>
    ensures { OnOk result (text.new ≡ text.old ++ options.item_text listed.now) }
{
    match listed.offer {
        Offer::Grain(grain) => put_grain(text, grain, listed.quality),
        Offer::Site { tag, item } => put_site(text, tag, item, listed.quality),
    }
}

// The items that follow another one, each behind a comma.
fn put_others(text: &mut Bytes, listed: &[Listed]) -> Result<(), Memory>
    ensures { OnOk result (text.new ≡ text.old ++ flat_map (λ other.
        44 ∷ options.item_text other) listed.now) }
{
    for other in listed {
        text.put(b",")?;
        put_item(text, other)?;
    }
    Ok(())
}

// The items, joined by commas.
fn put_items(text: &mut Bytes, listed: &[Listed]) -> Result<(), Memory>
    ensures { OnOk result (text.new ≡ text.old ++ join_with_byte 44 (map options.item_text listed.now)) }
{
    match listed {
        [] => Ok(()),
        [first, others @ ..] => {
            put_item(text, first)?;
            put_others(text, others)
        }
    }
}

fn options_body(alloc: Global, listed: &[Listed]) -> Result<Bytes, Memory>
    ensures { IfOk result (λ body. body ≡ options.options_body listed.now) }
{
    let mut body = Bytes::empty(alloc);
    body.put(b"{\"options\":[")?;
    put_items(&mut body, listed)?;
    body.put(b"]}")?;
    Ok(body)
}

/// The answer to the question what may be chosen: the offers that are listed, in their order.
pub fn options_reply(alloc: Global, listed: &[Listed], head_only: bool) -> Result<Bytes, Memory>
    ensures { IfOk result (λ text. text ≡ options.options_text listed.now head_only) }
{
    let body = options_body(alloc, listed)?;
    let reply = reply_text(alloc, 200, false, body.as_slice(), head_only)?;
    Ok(Bytes::new(reply))
}
