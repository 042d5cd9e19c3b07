//! The answers to the questions of the report.

ghost use Rattle.std.specs.Prelude.{◌≡◌, false, IfOk};
ghost use Rattle.serde_json.specs.View.{view};
ghost use Rattle.serde_json.specs.Written.{has_float};
ghost use Rattle.report_texts.specs.Pages.{page_data};
ghost use Rattle.report_texts.specs.Answers.{access_data, data_text, missing_data, preview_data, shared_data, why_data};

use crate::data::{access_value, missing_value, preview_value, shared_value, why_value};
use crate::pages::page_value;
use front_http::reply_text;
use host_base::{AccountId, Bytes, Memory};
use listings::Page;
use report_desk::{Reason, ReportLine};
use serde_json::Value;
use std::alloc::Global;

// The answer with a value.
fn value_reply(alloc: Global, value: &Value, head_only: bool) -> Result<Bytes, Memory>
    requires { has_float (view value.now) ≡ false }
    ensures { IfOk result (λ text. text ≡ data_text (view value.now) head_only) }
{
    let body = value.to_string(alloc)?;
    let reply = reply_text(alloc, 200, false, body.as_bytes(), head_only)?;
    Ok(Bytes::new(reply))
}

/// The answer to the question who has access.
#[tactic(auto, using(crate::proofs::Floats::access_exact))]
pub fn access_reply(alloc: Global, report: &[ReportLine], head_only: bool) -> Result<Bytes, Memory>
    ensures { IfOk result (λ text. text ≡ data_text (access_data report.now) head_only) }
{
    let value = access_value(alloc, report)?;
    value_reply(alloc, &value, head_only)
}

/// The answer to the question what a revocation would take.
#[tactic(auto, using(crate::proofs::Floats::preview_exact))]
pub fn preview_reply(alloc: Global, report: &[ReportLine], head_only: bool) -> Result<Bytes, Memory>
    ensures { IfOk result (λ text. text ≡ data_text (preview_data report.now) head_only) }
{
    let value = preview_value(alloc, report)?;
    value_reply(alloc, &value, head_only)
}

/// The answer to the question why an account has access.
#[tactic(auto, using(crate::proofs::Floats::why_exact))]
pub fn why_reply(alloc: Global, reasons: &[Reason], head_only: bool) -> Result<Bytes, Memory>
    ensures { IfOk result (λ text. text ≡ data_text (why_data reasons.now) head_only) }
{
    let value = why_value(alloc, reasons)?;
    value_reply(alloc, &value, head_only)
}

/// The answer to the question which members of a collection are owed a share.
#[tactic(auto, using(crate::proofs::Floats::missing_exact))]
pub fn missing_reply(alloc: Global, members: &[AccountId], head_only: bool) -> Result<Bytes, Memory>
    ensures { IfOk result (λ text. text ≡ data_text (missing_data members.now) head_only) }
{
    let value = missing_value(alloc, members)?;
    value_reply(alloc, &value, head_only)
}

/// The answer of how many members of a collection got a share.
#[tactic(auto, using(crate::proofs::Floats::shared_exact))]
pub fn shared_reply(alloc: Global, made: u64, head_only: bool) -> Result<Bytes, Memory>
    ensures { IfOk result (λ text. text ≡ data_text (shared_data made) head_only) }
{
    let value = shared_value(alloc, made)?;
    value_reply(alloc, &value, head_only)
}

/// The answer to the question for a page of a list.
#[tactic(auto, using(crate::proofs::PageFloats::page_exact))]
pub fn page_reply(alloc: Global, page: &Page, head_only: bool) -> Result<Bytes, Memory>
    ensures { IfOk result (λ text. text ≡ data_text (page_data page.now) head_only) }
{
    let value = page_value(alloc, page)?;
    value_reply(alloc, &value, head_only)
}
