ghost use Rattle.std.specs.Prelude.{◌≡◌, ◌≤◌, ◌∷◌, [], true, length, IfOk};
ghost use Rattle.app_manifest.specs.Manifest.{manifest_of, role_of_draft};
ghost use Rattle.plain_data.specs.Name.{is_plain};
ghost use Rattle.small_book.specs.SmallBook.{app_row, notes, offer, permission_row, poll, role_draft, small_apps};

use app_manifest::{Descriptors, Manifest, PermissionDef};
use host_base::{AppId, Memory};
use perm_roles::{PermSet, Role};
use plain_data::{List, Name};
use powerbox_match::{Descriptor, Quality, Tag, TagValue};
use share_graph::{App, Rows};
use std::alloc::Global;

fn permission(alloc: Global, name: &str) -> Result<PermissionDef, Memory>
    requires { is_plain name.now ≡ true }
    ensures { IfOk result (λ row. row ≡ permission_row name.now) }
{
    Ok(PermissionDef {
        name: Name::from_plain(alloc, name)?,
        title: Name::from_plain(alloc, name)?,
        description: Name::from_plain(alloc, "")?,
        obsolete: false,
    })
}

fn role(alloc: Global, title: &str, list: &[bool], default: bool) -> Result<Role, Memory>
    requires title { is_plain title.now ≡ true }
    requires few { length list.now ≤ 64 }
    ensures { IfOk result (λ role. role ≡ role_of_draft (role_draft title.now list.now default)) }
{
    let Ok(perms) = PermSet::from_list(list, 64) else {
        unreachable!()
    };
    Ok(Role {
        title: Name::from_plain(alloc, title)?,
        verb: Name::from_plain(alloc, "")?,
        perms,
        default,
        obsolete: false,
    })
}

fn offers(alloc: Global, id: u64) -> Result<Descriptors, Memory>
    ensures { IfOk result (λ rows. rows ≡ offer id ∷ []) }
{
    let mut tags = Vec::new(alloc);
    tags.push(Tag::new(id, TagValue::Any)?)?;
    let mut list = List::empty(alloc);
    list.push(Descriptor::new(tags, Quality::Acceptable))?;
    Ok(list)
}

fn notes(alloc: Global) -> Result<Manifest, Memory>
    ensures { IfOk result (λ m. m ≡ manifest_of notes) }
{
    let mut permissions = List::empty(alloc);
    permissions.push(permission(alloc, "view")?)?;
    permissions.push(permission(alloc, "edit")?)?;
    permissions.push(permission(alloc, "manage")?)?;
    let mut roles = List::empty(alloc);
    roles.push(role(alloc, "reader", &[true], false)?)?;
    roles.push(role(alloc, "writer", &[true, true], false)?)?;
    Ok(Manifest {
        title: Name::from_plain(alloc, "Notes")?,
        version: 1,
        permissions,
        roles,
        match_requests: offers(alloc, 7)?,
    })
}

fn poll(alloc: Global) -> Result<Manifest, Memory>
    ensures { IfOk result (λ m. m ≡ manifest_of poll) }
{
    let mut permissions = List::empty(alloc);
    permissions.push(permission(alloc, "vote")?)?;
    permissions.push(permission(alloc, "close")?)?;
    let mut roles = List::empty(alloc);
    roles.push(role(alloc, "voter", &[true], true)?)?;
    Ok(Manifest {
        title: Name::from_plain(alloc, "Poll")?,
        version: 1,
        permissions,
        roles,
        match_requests: List::empty(alloc),
    })
}

pub(crate) fn apps(alloc: Global) -> Result<Rows<App>, Memory>
    ensures { IfOk result (λ rows. rows ≡ small_apps) }
{
    let mut list = Rows::empty(alloc);
    let manifest = notes(alloc)?;
    list.push(App {
        num: AppId(1),
        manifest,
    })?;
    let manifest = poll(alloc)?;
    list.push(App {
        num: AppId(2),
        manifest,
    })?;
    Ok(list)
}
