//! As whom a request is shown.

ghost use Rattle.std.specs.Prelude.{IfOk, IfSome};
ghost use Rattle.share_graph.specs.Checked.{IsChecked};
ghost use Rattle.share_graph.specs.Known.{HasAccount};
ghost use Rattle.session_table.specs.Behind.{HasRoot};
ghost use Rattle.session_table.specs.Standing.{IsShownBy, IsShownFor};

use host_base::{AccountId, Memory, Shown};
use share_graph::{Root, Tables, account, shown_as};

// As nobody, or as an account.
fn shown_by(tables: &Tables, who: Option<AccountId>) -> Result<Shown, Memory>
    requires { IfSome who (HasAccount tables.now) }
    ensures { IfOk result (IsShownBy tables.now who) }
{
    let Some(num) = who else {
        return Ok(Shown::Anonymous);
    };
    let Some(row) = account(tables, num) else {
        unreachable!()
    };
    let handle = row.handle.clone()?;
    let name = row.name.clone()?;
    Ok(Shown::Account { num, handle, name })
}

/// As whom a root is shown: an account as itself, and whoever holds a grant as the grant's bearer.
pub fn shown_for(tables: &Tables, root: Root) -> Result<Shown, Memory>
    requires checked { IsChecked tables.now }
    requires there { HasRoot tables.now root }
    ensures { IfOk result (IsShownFor tables.now root) }
{
    match root {
        Root::Account(num) => shown_by(tables, Some(num)),
        Root::Grant(num) => {
            let who = shown_as(tables, num);
            shown_by(tables, who)
        }
    }
}
