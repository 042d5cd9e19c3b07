//! The pages of lists, as JSON values.

ghost use Rattle.std.specs.Prelude.{◌≡◌, IfOk};
ghost use Rattle.serde_json.specs.Data.{object};
ghost use Rattle.serde_json.specs.View.{view};
ghost use Rattle.report_texts.specs.Pages.{account_data, app_data, by_data, expires_data, grain_data, grant_line_data, named_data, page_data, role_data, role_line_data, to_data};

use crate::data::{AsJson, array_value};
use listings::{AccountLine, AppLine, GivenTo, GrainLine, GrantLine, Page, RoleLine};
use report_desk::{GivenAs, GivenBy};
use serde_json::{Value, json};
use std::alloc::{AllocError, Global};

impl AsJson for AccountLine {
    ghost shown = { account_data };

    #[tactic(auto, unfolding(crate::specs::Pages::account_data))]
    fn value(&self, alloc: Global) -> Result<Value, AllocError> {
        json!(in alloc; {
            "account": self.account.0,
            "admin": self.admin,
            "enabled": self.enabled,
            "handle": self.handle.as_str(),
            "name": self.name.as_str(),
        })
    }
}

impl AsJson for RoleLine {
    ghost shown = { role_line_data };

    #[tactic(auto, unfolding(crate::specs::Pages::role_line_data))]
    fn value(&self, alloc: Global) -> Result<Value, AllocError> {
        json!(in alloc; {
            "obsolete": self.obsolete,
            "title": self.title.as_str(),
        })
    }
}

impl AsJson for AppLine {
    ghost shown = { app_data };

    #[tactic(auto, unfolding(crate::specs::Pages::app_data))]
    fn value(&self, alloc: Global) -> Result<Value, AllocError> {
        json!(in alloc; {
            "app": self.app.0,
            "permissions": self.permissions.value(alloc)?,
            "roles": self.roles.value(alloc)?,
            "title": self.title.as_str(),
            "version": self.version,
        })
    }
}

impl AsJson for GrainLine {
    ghost shown = { grain_data };

    #[tactic(auto, unfolding(crate::specs::Pages::grain_data))]
    fn value(&self, alloc: Global) -> Result<Value, AllocError> {
        json!(in alloc; {
            "app": self.app.0,
            "grain": self.grain.0,
            "owner": self.owner.as_str(),
            "permissions": self.permissions.value(alloc)?,
            "running": self.running,
            "title": self.title.as_str(),
        })
    }
}

// A kind with a name, as an object of one member.
#[tactic(auto, unfolding(crate::specs::Pages::named_data))]
fn account_value(alloc: Global, handle: &str) -> Result<Value, AllocError>
    ensures { IfOk result (λ value. view value ≡ named_data handle.now) }
{
    json!(in alloc; {"account": handle})
}

impl AsJson for GivenBy {
    ghost shown = { by_data };

    #[tactic(auto, unfolding(crate::specs::Pages::by_data))]
    fn value(&self, alloc: Global) -> Result<Value, AllocError> {
        match self {
            GivenBy::Account(handle) => account_value(alloc, handle.as_str()),
            GivenBy::Grant(grant) => json!(in alloc; {"grant": grant.0}),
            GivenBy::Site => Value::try_from_str(alloc, "site"),
        }
    }
}

impl AsJson for GivenAs {
    ghost shown = { role_data };

    #[tactic(auto, unfolding(crate::specs::Pages::role_data))]
    fn value(&self, alloc: Global) -> Result<Value, AllocError> {
        match self {
            GivenAs::NoRole => Ok(Value::Null),
            GivenAs::AllAccess => Value::try_from_str(alloc, "all"),
            GivenAs::Role(title) => json!(in alloc; {"title": title.as_str()}),
        }
    }
}

impl AsJson for GivenTo {
    ghost shown = { to_data };

    #[tactic(auto, unfolding(crate::specs::Pages::to_data))]
    fn value(&self, alloc: Global) -> Result<Value, AllocError> {
        match self {
            GivenTo::Account(handle) => account_value(alloc, handle.as_str()),
            GivenTo::Bearer(true) => Value::try_from_str(alloc, "link"),
            GivenTo::Bearer(false) => Value::try_from_str(alloc, "token"),
            GivenTo::Grain(grain) => json!(in alloc; {"grain": grain.0}),
        }
    }
}

// The moment at which a grant ends, or null.
fn expires_value(expires: Option<u64>) -> Value
    ensures { view result ≡ expires_data expires }
{
    match expires {
        Some(moment) => Value::from(moment),
        None => Value::Null,
    }
}

impl AsJson for GrantLine {
    ghost shown = { grant_line_data };

    #[tactic(auto, unfolding(crate::specs::Pages::grant_line_data))]
    fn value(&self, alloc: Global) -> Result<Value, AllocError> {
        json!(in alloc; {
            "by": self.passing.by.value(alloc)?,
            "changed": self.passing.changed,
            "expires": expires_value(self.expires),
            "grant": self.passing.grant.0,
            "needs": self.needs,
            "revoked": self.revoked,
            "role": self.passing.base.value(alloc)?,
            "to": self.to.value(alloc)?,
        })
    }
}

/// A page of a list.
#[tactic(auto, unfolding(crate::specs::Pages::page_data))]
pub(crate) fn page_value(alloc: Global, page: &Page) -> Result<Value, AllocError>
    ensures { IfOk result (λ value. view value ≡ page_data page.now) }
{
    match page {
        Page::Accounts(lines) => {
            json!(in alloc; {"accounts": array_value(alloc, lines.as_slice())?})
        }
        Page::Apps(lines) => json!(in alloc; {"apps": array_value(alloc, lines.as_slice())?}),
        Page::Grains(lines) => json!(in alloc; {"grains": array_value(alloc, lines.as_slice())?}),
        Page::Grants(lines) => json!(in alloc; {"grants": array_value(alloc, lines.as_slice())?}),
    }
}
