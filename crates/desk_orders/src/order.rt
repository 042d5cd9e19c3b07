//! Orders: a caller's commands.

ghost use Rattle.std.specs.Prelude.{◌≡◌};
ghost use Rattle.desk_orders.specs.Commands as commands;

use app_manifest::Manifest;
use host_base::{AccountId, AppId, Digest, GrainId, GrantId, SessionId};
use listings::Subject;
use perm_roles::{Assignment, PermSet};
use plain_data::Name;
use powerbox_match::Query;
use share_graph::{Caller, Needs, Offer};
use std::marker::Model;

/// What a caller asks for.
#[derive(Drop)]
pub enum Command {
    /// A new account, with a handle and a name.
    AddAccount(Name, Name),
    /// An account becomes an admin, or is one no longer.
    SetAdmin(AccountId, bool),
    /// An account is enabled, or disabled.
    SetEnabled(AccountId, bool),
    /// An account gets another login: the caller's, or the one that is named.
    RenewLogin(Option<AccountId>),
    /// A new application.
    AddApp(Manifest),
    /// An application gets another manifest.
    UpgradeApp(AppId, Manifest),
    /// A new grain of an application, with a title.
    NewGrain(AppId, Name),
    /// A grain goes into the trash.
    Trash(GrainId),
    /// A grain comes out of the trash.
    Untrash(GrainId),
    /// A grain is shared with an account, until the expiry, if there is one, in seconds.
    Share {
        grain: GrainId,
        to: AccountId,
        assignment: Assignment,
        needs: Needs,
        expires: Option<u64>,
    },
    /// A token to a grain, until the expiry in the same way: a link where it is for sharing, else an API token.
    MakeToken {
        grain: GrainId,
        for_sharing: bool,
        assignment: Assignment,
        needs: Needs,
        expires: Option<u64>,
    },
    /// A further token from the grant whose token the caller bears, until the expiry in the same way.
    Child {
        for_sharing: bool,
        assignment: Assignment,
        needs: Needs,
        expires: Option<u64>,
    },
    /// The link whose token has this digest is redeemed.
    Redeem(Digest),
    /// A grant is revoked.
    Revoke(GrantId),
    /// A run of a grain starts: of the one that is named, or of the one whose token the caller bears.
    StartRun(Option<GrainId>),
    /// The run of a grain stops.
    StopRun(GrainId),
    /// A session on a grain, named in the same way, and its tab.
    OpenSession {
        grain: Option<GrainId>,
        tab: Option<u64>,
    },
    /// A session is closed.
    CloseSession(SessionId),
    /// What may be chosen for a grain, of what matches a query.
    Options(GrainId, Query),
    /// What is offered is chosen for a grain, which asked by a query: another grain, with an assignment, or an item of
    /// a site.
    Choose {
        grain: GrainId,
        offer: Offer,
        query: Query,
        assignment: Assignment,
    },
    /// The run that calls claims what was chosen for its grain, whose token has this digest, while the chooser holds
    /// the permissions on that grain.
    Claim {
        token: Digest,
        permissions: PermSet,
    },
    /// What a handle of the run that calls stands for is saved, with a label.
    Save {
        handle: u32,
        label: Name,
    },
    /// The run that calls gets a handle to what was saved, whose token has this digest.
    Restore(Digest),
    /// What was saved, whose token has this digest, is dropped.
    DropSaved(Digest),
    /// Who has access to a grain.
    Access(GrainId),
    /// What revoking a grant would take.
    Preview(GrantId),
    /// Why an account has access to a grain.
    Why(GrainId, AccountId),
    /// Which members of a collection are owed a share of what the caller lists there by a link.
    Missing(GrainId, GrantId),
    /// A page of a list.
    List(Subject),
    /// A member of a collection gets the share that it is owed in the same way.
    Collect {
        collection: GrainId,
        link: GrantId,
        member: AccountId,
    },
}

/// A command with its caller, who is as its row asks: a login, a bearer, either, or a run. A grain is named to run or to
/// be opened exactly where the caller is a login. A handle in it has the form of one, and a manifest in it is sound.
#[derive(Drop)]
pub struct Order {
    pub(crate) caller: Caller,
    pub(crate) command: Command,
}

impl Model for Order {
    ghost use Rattle.std.specs.Coded.{codes};
    ghost use Rattle.app_manifest.specs.contracts.manifest.Manifest as manifest_type;
    ghost use Rattle.powerbox_match.specs.Code.{descriptor_code};
    ghost use Rattle.desk_orders.specs.Commands.{Asked, IsStated};

    ghost Value = { Asked };

    ghost coded = { Prim.hlevel (codes, manifest_type.the_row.coded, descriptor_code) };

    ghost view = { λ order. record { caller = order.caller; command = order.command } };

    ghost invariant = { λ order. IsStated order.caller order.command };
}

impl Order {
    /// A caller's command.
    pub fn new(caller: Caller, command: Command) -> Self
        requires { commands.IsStated caller command }
        ensures { result ≡ record { caller = caller; command = command } }
    {
        Order { caller, command }
    }
}
