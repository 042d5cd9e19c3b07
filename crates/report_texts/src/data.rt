//! What the answers hold, as JSON values.

ghost use Rattle.std.specs.Prelude.{◌≡◌, IfOk, string_bytes};
ghost use Rattle.serde_json.specs.Data.{Data, object, string};
ghost use Rattle.report_desk.specs.declared.holder.Holder.TheVariants as holder;
ghost use Rattle.serde_json.specs.View.{view};
ghost use Rattle.report_texts.specs.Answers.{access_data, array_of, grant_data, line_data, line_members, missing_data, number_of, preview_data, shared_data, step_data, why_data};
ghost use Rattle.report_texts.specs.Words.{step_words};

use crate::words::put_step;
use host_base::{AccountId, GrainId, GrantId};
use plain_data::{List, Name};
use report_desk::{Holder, Passing, Reason, ReasonStep, ReportLine};
use serde_json::{Value, json};
use std::alloc::{AllocError, Global};

/// What answers show as JSON.
pub(crate) trait AsJson {
    /// The data that it is shown as.
    ghost shown: { Self → Data };

    /// The value that it is shown as.
    fn value(&self, alloc: Global) -> Result<Value, AllocError>
        ensures { IfOk result (λ value. view value ≡ shown self.now) };
}

impl AsJson for Name {
    ghost shown = { string };

    fn value(&self, alloc: Global) -> Result<Value, AllocError> {
        Value::try_from_str(alloc, self.as_str())
    }
}

impl AsJson for u32 {
    ghost shown = { number_of };

    fn value(&self, _alloc: Global) -> Result<Value, AllocError> {
        Ok(Value::from(*self))
    }
}

impl AsJson for AccountId {
    ghost shown = { λ account. number_of account.0 };

    fn value(&self, _alloc: Global) -> Result<Value, AllocError> {
        Ok(Value::from(self.0))
    }
}

impl<T: AsJson> AsJson for List<T> {
    ghost shown = { array_of T.shown };

    fn value(&self, alloc: Global) -> Result<Value, AllocError> {
        array_value(alloc, self.as_slice())
    }
}

impl AsJson for ReportLine {
    ghost shown = { line_data };

    #[tactic(auto, unfolding(crate::specs::Answers::line_data))]
    fn value(&self, alloc: Global) -> Result<Value, AllocError> {
        match self.holder {
            Holder::User {
                account,
                ref handle,
                grain,
            } => user_value(alloc, account, handle, grain, self),
            Holder::Grant { grant, grain } => grant_value(alloc, grant, grain, self),
        }
    }
}

impl AsJson for ReasonStep {
    ghost shown = { step_data };

    #[tactic(auto, unfolding(crate::specs::Answers::step_data))]
    fn value(&self, alloc: Global) -> Result<Value, AllocError> {
        json!(in alloc; {
            "from": self.from.value(alloc)?,
            "grant": passing_value(&self.passing),
            "holds": self.line.value(alloc)?,
            "text": step_text(alloc, self)?,
        })
    }
}

/// An array with each item.
pub(crate) fn array_value<T: AsJson>(alloc: Global, items: &[T]) -> Result<Value, AllocError>
    ensures { IfOk result (λ value. view value ≡ array_of T.shown items.now) }
{
    let mut values = Vec::new(alloc);
    for item in items {
        values.push(item.value(alloc)?)?;
    }
    Ok(Value::Array(values))
}

// The line of an account.
fn user_value(
    alloc: Global,
    account: AccountId,
    handle: &Name,
    grain: GrainId,
    line: &ReportLine,
) -> Result<Value, AllocError>
    ensures { IfOk result (λ value. view value
        ≡ object (line_members (holder.User account handle.now grain) line.now.entry line.now.permissions)) }
{
    json!(in alloc; {
        "account": account.0,
        "entry": line.entry,
        "grain": grain.0,
        "handle": handle.as_str(),
        "permissions": line.permissions.value(alloc)?,
    })
}

// The line of a grant.
fn grant_value(
    alloc: Global,
    grant: GrantId,
    grain: GrainId,
    line: &ReportLine,
) -> Result<Value, AllocError>
    ensures { IfOk result (λ value. view value
        ≡ object (line_members (holder.Grant grant grain) line.now.entry line.now.permissions)) }
{
    json!(in alloc; {
        "entry": line.entry,
        "grain": grain.0,
        "grant": grant.0,
        "permissions": line.permissions.value(alloc)?,
    })
}

// The number of the grant that a step follows by, or null.
fn passing_value(passing: &Option<Passing>) -> Value
    ensures { view result ≡ grant_data passing.now }
{
    match passing {
        None => Value::Null,
        Some(passing) => Value::from(passing.grant.0),
    }
}

// A step in words.
fn step_text(alloc: Global, step: &ReasonStep) -> Result<String, AllocError>
    ensures { IfOk result (λ text. string_bytes text ≡ step_words step.now) }
{
    let mut text = String::new(alloc);
    put_step(&mut text, step)?;
    Ok(text)
}

/// Who has access.
#[tactic(auto, unfolding(crate::specs::Answers::access_data))]
pub(crate) fn access_value(alloc: Global, report: &[ReportLine]) -> Result<Value, AllocError>
    ensures { IfOk result (λ value. view value ≡ access_data report.now) }
{
    json!(in alloc; {"access": array_value(alloc, report)?})
}

/// What a revocation would take.
#[tactic(auto, unfolding(crate::specs::Answers::preview_data))]
pub(crate) fn preview_value(alloc: Global, report: &[ReportLine]) -> Result<Value, AllocError>
    ensures { IfOk result (λ value. view value ≡ preview_data report.now) }
{
    json!(in alloc; {"losses": array_value(alloc, report)?})
}

/// Why an account has access.
#[tactic(auto, unfolding(crate::specs::Answers::why_data))]
pub(crate) fn why_value(alloc: Global, reasons: &[Reason]) -> Result<Value, AllocError>
    ensures { IfOk result (λ value. view value ≡ why_data reasons.now) }
{
    json!(in alloc; {"why": array_value(alloc, reasons)?})
}

/// Which members of a collection are owed a share.
#[tactic(auto, unfolding(crate::specs::Answers::missing_data))]
pub(crate) fn missing_value(alloc: Global, members: &[AccountId]) -> Result<Value, AllocError>
    ensures { IfOk result (λ value. view value ≡ missing_data members.now) }
{
    json!(in alloc; {"missing": array_value(alloc, members)?})
}

/// How many members got a share.
#[tactic(auto, unfolding(crate::specs::Answers::shared_data))]
pub(crate) fn shared_value(alloc: Global, made: u64) -> Result<Value, AllocError>
    ensures { IfOk result (λ value. view value ≡ shared_data made) }
{
    json!(in alloc; {"shared": made})
}
