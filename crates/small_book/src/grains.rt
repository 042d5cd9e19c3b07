ghost use Rattle.std.specs.Prelude.{◌≡◌, true, IfOk};
ghost use Rattle.plain_data.specs.Name.{is_plain};
ghost use Rattle.small_book.specs.SmallBook.{grain_row, small_grains, share_row, small_grants};

use host_base::{AccountId, AppId, GrainId, GrantId, Memory};
use perm_roles::{Assignment, Base, PermSet};
use plain_data::{List, Name};
use share_graph::{Giver, Grain, Grant, Rows, Target};
use std::alloc::Global;

fn grain(alloc: Global, num: u32, app: u32, owner: u32, title: &str) -> Result<Grain, Memory>
    requires { is_plain title.now ≡ true }
    ensures { IfOk result (λ row. row ≡ grain_row num app owner title.now) }
{
    Ok(Grain {
        num: GrainId(num),
        app: AppId(app),
        owner: AccountId(owner),
        title: Name::from_plain(alloc, title)?,
        trashed: false,
    })
}

pub(crate) fn grains(alloc: Global) -> Result<Rows<Grain>, Memory>
    ensures { IfOk result (λ rows. rows ≡ small_grains) }
{
    let mut list = Rows::empty(alloc);
    list.push(grain(alloc, 1, 1, 1, "Minutes")?)?;
    list.push(grain(alloc, 2, 2, 1, "Vote")?)?;
    Ok(list)
}

fn share(alloc: Global, num: u32, grain: u32, giver: u32, user: u32, base: Base) -> Grant
    ensures { result ≡ share_row num grain giver user base }
{
    Grant {
        num: GrantId(num),
        grain: GrainId(grain),
        giver: Giver::Account(AccountId(giver)),
        target: Target::User(AccountId(user)),
        assignment: Assignment {
            base,
            add: PermSet::empty(),
            remove: PermSet::empty(),
        },
        needs: List::empty(alloc),
        digest: None,
        revoked: false,
        expires: None,
    }
}

pub(crate) fn grants(alloc: Global) -> Result<Rows<Grant>, Memory>
    ensures { IfOk result (λ rows. rows ≡ small_grants) }
{
    let mut list = Rows::empty(alloc);
    list.push(share(alloc, 1, 1, 1, 2, Base::Role(1)))?;
    list.push(share(alloc, 2, 1, 2, 3, Base::AllAccess))?;
    Ok(list)
}
