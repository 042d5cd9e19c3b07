//! The lines that the program prints of a report.

ghost use Rattle.std.specs.Prelude.{◌≡◌, ◌++◌, IfOk, OnOk, string_bytes};
ghost use Rattle.report_texts.specs.Lines as lines;

use crate::words::{put, put_decimal, put_facts, put_grant, put_joined};
use host_base::{Bytes, GrainId, Memory};
use itoa::Buffer;
use report_desk::{Holder, ReportLine};
use std::alloc::{AllocError, Global};

// How a line begins.
#[tactic(auto, unfolding(crate::specs::Lines::holder_text))]
fn put_holder(text: &mut String, holder: &Holder) -> Result<(), AllocError>
    ensures { OnOk result (string_bytes text.new
        ≡ string_bytes text.old ++ lines.holder_text holder.now) }
{
    match holder {
        Holder::User {
            account,
            handle,
            ..
        } => {
            put(text, "user ")?;
            put_decimal(text, account.0)?;
            put(text, " ")?;
            put(text, handle.as_str())
        }
        Holder::Grant { grant, .. } => put_grant(text, *grant),
    }
}

// The grain that a holder is on.
fn grain_of(holder: &Holder) -> GrainId
    ensures { result ≡ lines.grain_of holder.now }
{
    match holder {
        Holder::User { grain, .. } | Holder::Grant { grain, .. } => *grain,
    }
}

#[tactic(auto, unfolding(crate::specs::Lines::access_line))]
fn put_access_line(text: &mut String, line: &ReportLine) -> Result<(), AllocError>
    ensures { OnOk result (string_bytes text.new
        ≡ string_bytes text.old ++ lines.access_line line.now) }
{
    put_holder(text, &line.holder)?;
    put(text, " ")?;
    put_joined(text, line.permissions.as_slice())?;
    put(text, "\n")
}

#[tactic(auto, unfolding(crate::specs::Lines::loss_line))]
fn put_loss_line(text: &mut String, line: &ReportLine) -> Result<(), AllocError>
    ensures { OnOk result (string_bytes text.new
        ≡ string_bytes text.old ++ lines.loss_line line.now) }
{
    put_holder(text, &line.holder)?;
    put(text, " grain ")?;
    put_decimal(text, grain_of(&line.holder).0)?;
    put(text, " loses ")?;
    put_facts(text, line)?;
    put(text, "\n")
}

/// A line of each node that has access: `user A HANDLE PERMS` or `grant G PERMS`, where PERMS are names joined by commas, or `-`.
#[tactic(auto, unfolding(crate::specs::Lines::access_text))]
pub fn access_text(alloc: Global, report: &[ReportLine]) -> Result<Bytes, Memory>
    ensures { IfOk result (λ text. text ≡ lines.access_text report.now) }
{
    let mut text = String::new(alloc);
    for line in report {
        put_access_line(&mut text, line)?;
    }
    Ok(Bytes::new(text.into_bytes()))
}

/// A line of each loss: `user A HANDLE grain N loses FACTS` or `grant G grain N loses FACTS`, where FACTS are `entry`, where it is lost,
/// and then names, joined by commas.
#[tactic(auto, unfolding(crate::specs::Lines::preview_text))]
pub fn preview_text(alloc: Global, report: &[ReportLine]) -> Result<Bytes, Memory>
    ensures { IfOk result (λ text. text ≡ lines.preview_text report.now) }
{
    let mut text = String::new(alloc);
    for line in report {
        put_loss_line(&mut text, line)?;
    }
    Ok(Bytes::new(text.into_bytes()))
}

/// How many members of a collection got a share: `shared N`.
#[tactic(auto, unfolding(crate::specs::Lines::shared_text))]
pub fn shared_text(alloc: Global, made: u64) -> Result<Bytes, Memory>
    ensures { IfOk result (λ text. text ≡ lines.shared_text made) }
{
    let mut text = String::new(alloc);
    put(&mut text, "shared ")?;
    put(&mut text, Buffer::new().format(made))?;
    put(&mut text, "\n")?;
    Ok(Bytes::new(text.into_bytes()))
}
