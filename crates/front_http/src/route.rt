use host_base::Digest;

/// What a request is for, with the number that its path has.
#[derive(Clone, Copy, PartialEq, Eq)]
pub enum Route {
    /// A request of the session whose key has this digest.
    Session(Digest),
    /// A request of a bearer token.
    Api,
    /// A request of a running grain to what the handle of this number stands for.
    Use(u32),

    // The desk's.
    /// The desk's page: a GET or HEAD of `/`.
    Page,
    /// `/accounts`
    Accounts,
    /// `/accounts/{n}/admin`
    AccountAdmin(u32),
    /// `/accounts/{n}/enabled`
    AccountEnabled(u32),
    /// `/accounts/{n}/login`
    AccountLogin(u32),
    /// `/login`
    Login,
    /// `/apps`
    Apps,
    /// `/apps/{n}/upgrade`
    AppUpgrade(u32),
    /// `/grains`
    Grains,
    /// `/grains/{n}/trash`
    GrainTrash(u32),
    /// `/grains/{n}/untrash`
    GrainUntrash(u32),
    /// `/grains/{n}/share`
    GrainShare(u32),
    /// `/grains/{n}/link`
    GrainLink(u32),
    /// `/grains/{n}/token`
    GrainToken(u32),
    /// `/grains/{n}/open`
    GrainOpen(u32),
    /// `/grains/{n}/wake`
    GrainWake(u32),
    /// `/grains/{n}/stop`
    GrainStop(u32),
    /// `/grains/{n}/query`
    GrainQuery(u32),
    /// `/grains/{n}/choose`
    GrainChoose(u32),
    /// `/grains/{n}/access`
    GrainAccess(u32),
    /// `/grains/{n}/why`
    GrainWhy(u32),
    /// `/grains/{n}/missing`
    GrainMissing(u32),
    /// `/grains/{n}/collect`
    GrainCollect(u32),
    /// `/grains/{n}/shares`
    GrainShares(u32),
    /// `/me`
    Me,
    /// `/mine`
    Mine,
    /// `/accounts/list`
    AccountsList,
    /// `/apps/list`
    AppsList,
    /// `/redeem`
    Redeem,
    /// `/grants/{n}/revoke`
    GrantRevoke(u32),
    /// `/grants/{n}/preview`
    GrantPreview(u32),
    /// `/sessions/{n}/close`
    SessionClose(u32),
    /// `/child`
    Child,
    /// `/open`
    Open,
    /// `/wake`
    Wake,

    // A running grain's.
    /// `/claim`
    Claim,
    /// `/save`
    Save,
    /// `/restore`
    Restore,
    /// `/drop`
    Drop,
}
