//! The words of a report, each appended to a text.

ghost use Rattle.std.specs.Prelude.{◌≡◌, ◌∷◌, ◌++◌, codes, decimal, flat_map, OnOk, Some, string_bytes};
ghost use Rattle.report_texts.specs.Words as words;

use host_base::GrantId;
use itoa::Buffer;
use plain_data::Name;
use report_desk::{GivenAs, GivenBy, Holder, Passing, ReasonStep, ReportLine};
use share_graph::Target;
use std::alloc::AllocError;

/// Appends a piece.
pub(crate) fn put(text: &mut String, piece: &str) -> Result<(), AllocError>
    ensures { OnOk result (string_bytes text.new ≡ string_bytes text.old ++ piece.now) }
{
    text.push_str(piece)?;
    Ok(())
}

/// A number in decimal.
pub(crate) fn put_decimal(text: &mut String, number: u32) -> Result<(), AllocError>
    ensures { OnOk result (string_bytes text.new ≡ string_bytes text.old ++ decimal number) }
{
    let mut buffer = Buffer::new();
    put(text, buffer.format(number))
}

/// A grant, by its number.
pub(crate) fn put_grant(text: &mut String, grant: GrantId) -> Result<(), AllocError>
    ensures { OnOk result (string_bytes text.new
        ≡ string_bytes text.old ++ (codes "grant " ++ decimal grant.0)) }
{
    put(text, "grant ")?;
    put_decimal(text, grant.0)
}

// Names that follow another one, each behind a comma.
fn put_others(text: &mut String, names: &[Name]) -> Result<(), AllocError>
    ensures { OnOk result (string_bytes text.new
        ≡ string_bytes text.old ++ flat_map (λ name. 44 ∷ name) names.now) }
{
    for name in names {
        put(text, ",")?;
        put(text, name.as_str())?;
    }
    Ok(())
}

/// Names joined by commas, or `-` where there are none.
#[tactic(auto, unfolding(crate::specs::Words::joined))]
pub(crate) fn put_joined(text: &mut String, names: &[Name]) -> Result<(), AllocError>
    ensures { OnOk result (string_bytes text.new ≡ string_bytes text.old ++ words.joined names.now) }
{
    match names {
        [] => put(text, "-"),
        [first, others @ ..] => {
            put(text, first.as_str())?;
            put_others(text, others)
        }
    }
}

/// What a line has, joined by commas: `entry`, where it has it, and then the names of permissions; or `-` where it has nothing.
pub(crate) fn put_facts(text: &mut String, line: &ReportLine) -> Result<(), AllocError>
    ensures { OnOk result (string_bytes text.new
        ≡ string_bytes text.old ++ words.joined (words.facts_of line.now)) }
{
    let names = line.permissions.as_slice();
    if line.entry {
        put(text, "entry")?;
        put_others(text, names)
    } else {
        put_joined(text, names)
    }
}

// What a holder is called.
#[tactic(auto, unfolding(crate::specs::Words::holder_name))]
fn put_holder_name(text: &mut String, holder: &Holder) -> Result<(), AllocError>
    ensures { OnOk result (string_bytes text.new
        ≡ string_bytes text.old ++ words.holder_name holder.now) }
{
    match holder {
        Holder::User { handle, .. } => put(text, handle.as_str()),
        Holder::Grant { grant, .. } => put_grant(text, *grant),
    }
}

// Whose a grant is.
#[tactic(auto, unfolding(crate::specs::Words::giver_words))]
fn put_giver(text: &mut String, by: &GivenBy) -> Result<(), AllocError>
    ensures { OnOk result (string_bytes text.new ≡ string_bytes text.old ++ words.giver_words by.now) }
{
    match by {
        GivenBy::Account(handle) => put(text, handle.as_str()),
        GivenBy::Grant(grant) => put_grant(text, *grant),
        GivenBy::Site => put(text, "the site"),
    }
}

// What a grant is called, by whom it goes to.
#[tactic(auto, unfolding(crate::specs::Words::kind_words))]
fn kind_words(target: Target) -> &'static str
    ensures { result.now ≡ words.kind_words target }
{
    match target {
        Target::User(_) => "share",
        Target::Bearer { for_sharing: true } => "link",
        Target::Bearer { for_sharing: false } => "token",
        Target::Claim(_) | Target::Grain(_) => "choice",
    }
}

// As what something is given.
#[tactic(auto, unfolding(crate::specs::Words::base_words))]
fn base_words(base: &GivenAs) -> &str
    ensures { result.now ≡ words.base_words base.now }
{
    match base {
        GivenAs::NoRole => "no role",
        GivenAs::AllAccess => "all access",
        GivenAs::Role(title) => title.as_str(),
    }
}

// Whether permissions were added or removed.
#[tactic(auto, unfolding(crate::specs::Words::changed_words))]
fn changed_words(changed: bool) -> &'static str
    ensures { result.now ≡ words.changed_words changed }
{
    if changed { " with changes" } else { "" }
}

// The grant that a step follows by.
#[tactic(auto, unfolding(crate::specs::Words::passing_words))]
fn put_grant_passed(text: &mut String, passing: &Passing) -> Result<(), AllocError>
    ensures { OnOk result (string_bytes text.new
        ≡ string_bytes text.old ++ words.passing_words (Some passing.now)) }
{
    put(text, "from ")?;
    put_giver(text, &passing.by)?;
    put(text, "'s ")?;
    put(text, kind_words(passing.target))?;
    put(text, " ")?;
    put_decimal(text, passing.grant.0)?;
    put(text, " as ")?;
    put(text, base_words(&passing.base))?;
    put(text, changed_words(passing.changed))
}

// By what a step follows.
#[tactic(auto, unfolding(crate::specs::Words::passing_words))]
fn put_passing(text: &mut String, passing: &Option<Passing>) -> Result<(), AllocError>
    ensures { OnOk result (string_bytes text.new
        ≡ string_bytes text.old ++ words.passing_words passing.now) }
{
    match passing {
        None => put(text, "as the owner"),
        Some(passing) => put_grant_passed(text, passing),
    }
}

/// A step of an explanation.
#[tactic(auto, unfolding(crate::specs::Words::step_words))]
pub(crate) fn put_step(text: &mut String, step: &ReasonStep) -> Result<(), AllocError>
    ensures { OnOk result (string_bytes text.new
        ≡ string_bytes text.old ++ words.step_words step.now) }
{
    put_holder_name(text, &step.line.holder)?;
    put(text, " holds ")?;
    put_facts(text, &step.line)?;
    put(text, ": ")?;
    put_passing(text, &step.passing)
}
