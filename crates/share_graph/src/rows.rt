use app_manifest::Manifest;
use host_base::{AccountId, AppId, Digest, GrainId, GrantId, SavedId};
use plain_data::Name;

/// An account of the server, known by the digest of its login.
#[derive(Clone)]
pub struct Account {
    pub num: AccountId,
    pub handle: Name,
    pub name: Name,
    pub login: Digest,
    pub admin: bool,
    pub enabled: bool,
}

// Written by hand, as those of the other rows are: a proof then has one call wherever a row is let go.
impl Drop for Account {
    fn drop(self) {
        let Account {
            num: _,
            handle: _,
            name: _,
            login: _,
            admin: _,
            enabled: _,
        } = self;
    }
}

/// An application, as its manifest describes it.
#[derive(Clone)]
pub struct App {
    pub num: AppId,
    pub manifest: Manifest,
}

impl Drop for App {
    fn drop(self) {
        let App {
            num: _,
            manifest: _,
        } = self;
    }
}

/// A grain: one instance of an application, owned by one account.
#[derive(Clone)]
pub struct Grain {
    pub num: GrainId,
    pub app: AppId,
    pub owner: AccountId,
    pub title: Name,
    pub trashed: bool,
}

impl Drop for Grain {
    fn drop(self) {
        let Grain {
            num: _,
            app: _,
            owner: _,
            title: _,
            trashed: _,
        } = self;
    }
}

/// A reference to a grant that a grain saved, known by the digest of its token.
#[derive(Clone)]
pub struct Saved {
    pub num: SavedId,
    pub holder: GrainId,
    pub grant: GrantId,
    pub label: Name,
    pub digest: Digest,
    pub dropped: bool,
}

impl Drop for Saved {
    fn drop(self) {
        let Saved {
            num: _,
            holder: _,
            grant: _,
            label: _,
            digest: _,
            dropped: _,
        } = self;
    }
}
