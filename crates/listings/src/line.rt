use host_base::{AccountId, AppId, GrainId, Names};
use plain_data::{List, Name};
use report_desk::Passing;

/// An account, as others see it: without its login.
#[derive(Drop)]
pub struct AccountLine {
    pub account: AccountId,
    pub handle: Name,
    pub name: Name,
    pub admin: bool,
    pub enabled: bool,
}

/// A role that an application offers, by its place in the list; one that is obsolete can't be given any more.
#[derive(Drop)]
pub struct RoleLine {
    pub title: Name,
    pub obsolete: bool,
}

/// An application: what it is called, its version, the names of its permissions, and its roles.
#[derive(Drop)]
pub struct AppLine {
    pub app: AppId,
    pub title: Name,
    pub version: u32,
    pub permissions: Names,
    pub roles: List<RoleLine>,
}

/// A grain that an account enters: its application, its owner's handle, the permissions that the account holds on it, by
/// their names in the application's order, and whether a run of it is known to be live.
#[derive(Drop)]
pub struct GrainLine {
    pub grain: GrainId,
    pub app: AppId,
    pub title: Name,
    pub owner: Name,
    pub permissions: Names,
    pub running: bool,
}

/// Whom a grant goes to: an account, by its handle, whoever bears its token, of a link where it is for sharing, or a grain.
#[derive(Drop)]
pub enum GivenTo {
    Account(Name),
    Bearer(bool),
    Grain(GrainId),
}

/// A grant: who gave it, to whom and as what, how many needs it has, at which moment it ends, in seconds, if it does, and
/// whether it was revoked.
#[derive(Drop)]
pub struct GrantLine {
    pub passing: Passing,
    pub to: GivenTo,
    pub needs: u64,
    pub expires: Option<u64>,
    pub revoked: bool,
}

/// A page of accounts.
pub type AccountLines = List<AccountLine>;

/// A page of applications.
pub type AppLines = List<AppLine>;

/// A page of grains.
pub type GrainLines = List<GrainLine>;

/// A page of grants.
pub type GrantLines = List<GrantLine>;
