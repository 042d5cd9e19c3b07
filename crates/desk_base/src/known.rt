ghost use Rattle.std.specs.Prelude.{MatchResult};
ghost use Rattle.desk_base.specs.Terms.{IsGrain, IsGrant, none};
ghost use Rattle.share_graph.specs.declared.refusal.Refusal.TheVariants as refusal;
ghost use Rattle.share_graph.specs.declared.fault.Kind.TheVariants as kind;
ghost use Rattle.share_graph.specs.Rows.{IsAccount, IsApp};

use host_base::{AccountId, AppId, GrainId, GrantId};
use share_graph::{
    Account, App, Grain, Grant, Kind, Refusal, Tables, account, app, grain, grant as find_grant,
};

/// The account of a number.
pub fn known_account(tables: &Tables, num: AccountId) -> Result<&Account, Refusal>
    ensures { MatchResult result (λ row. IsAccount tables.now num row.now)
        (none (IsAccount tables.now num) (refusal.Unknown kind.Account num.0)) }
{
    account(tables, num).ok_or(Refusal::Unknown(Kind::Account, num.0))
}

/// The application of a number.
pub fn known_app(tables: &Tables, num: AppId) -> Result<&App, Refusal>
    ensures { MatchResult result (λ row. IsApp tables.now num row.now)
        (none (IsApp tables.now num) (refusal.Unknown kind.App num.0)) }
{
    app(tables, num).ok_or(Refusal::Unknown(Kind::App, num.0))
}

/// The grain of a number.
pub fn known_grain(tables: &Tables, num: GrainId) -> Result<&Grain, Refusal>
    ensures { MatchResult result (λ row. IsGrain tables.now num row.now)
        (none (IsGrain tables.now num) (refusal.Unknown kind.Grain num.0)) }
{
    grain(tables, num).ok_or(Refusal::Unknown(Kind::Grain, num.0))
}

/// The grant of a number.
pub fn known_grant(tables: &Tables, num: GrantId) -> Result<&Grant, Refusal>
    ensures { MatchResult result (λ row. IsGrant tables.now num row.now)
        (none (IsGrant tables.now num) (refusal.Unknown kind.Grant num.0)) }
{
    find_grant(tables, num).ok_or(Refusal::Unknown(Kind::Grant, num.0))
}
