ghost use Rattle.std.specs.Prelude.{◌≡◌, IfOk};
ghost use Rattle.first_account.specs.First.{first_admin, first_tables, first_row};

use cloud_keeper::Row;
use host_base::{AccountId, Memory, digest_of};
use plain_data::Name;
use row_tables::row_bytes;
use share_graph::{Account, Kind, Rows, Tables};
use std::alloc::Global;

// The first account, whose login is a token of this text.
fn first_admin(alloc: Global, token: &[u8]) -> Result<Account, Memory>
    ensures { IfOk result (λ account. account ≡ first_admin token.now) }
{
    Ok(Account {
        num: AccountId(1),
        handle: Name::from_plain(alloc, "admin")?,
        name: Name::from_plain(alloc, "Admin")?,
        login: digest_of(token),
        admin: true,
        enabled: true,
    })
}

// The tables with that account alone.
fn first_tables(alloc: Global, token: &[u8]) -> Result<Tables, Memory>
    ensures { IfOk result (λ tables. tables ≡ first_tables token.now) }
{
    let mut accounts = Rows::empty(alloc);
    accounts.push(first_admin(alloc, token)?)?;
    Ok(Tables {
        accounts,
        apps: Rows::empty(alloc),
        grains: Rows::empty(alloc),
        grants: Rows::empty(alloc),
        saved: Rows::empty(alloc),
        moment: 0,
    })
}

/// The tables with the first account alone, whose login is a token of this text, and its row.
pub(crate) fn first_rows(alloc: Global, token: &[u8]) -> Result<(Tables, Row), Memory>
    ensures tables { IfOk result (λ first. first.0 ≡ first_tables token.now) }
    ensures row { IfOk result (λ first. first.1 ≡ first_row token.now) }
{
    let tables = first_tables(alloc, token)?;
    let row = row_bytes(alloc, &tables, Kind::Account, 1)?;
    Ok((tables, row))
}
