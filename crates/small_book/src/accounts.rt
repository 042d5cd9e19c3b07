ghost use Rattle.std.specs.Prelude.{◌≡◌, ◌≤◌, ◌+◌, ◌++◌, ◌∷◌, [], length, true, IfOk, OnOk};
ghost use Rattle.plain_data.specs.Name.{is_plain};
ghost use Rattle.sha2.specs.Sha256.{sha256};
ghost use Rattle.small_book.specs.SmallBook.{account_row, small_accounts};

use host_base::{AccountId, Memory, digest_of};
use plain_data::Name;
use share_graph::{Account, Rows};
use std::alloc::Global;

const ADA_LOGIN: &str = "AQEBAQEBAQEBAQEBAQEBAQEBAQEBAQEBAQEBAQEBAQE";

const ZOE_LOGIN: &str = "AgICAgICAgICAgICAgICAgICAgICAgICAgICAgICAgI";

const BEN_LOGIN: &str = "AwMDAwMDAwMDAwMDAwMDAwMDAwMDAwMDAwMDAwMDAwM";

const DAN_LOGIN: &str = "BAQEBAQEBAQEBAQEBAQEBAQEBAQEBAQEBAQEBAQEBAQ";

/// Appends the account of the next number.
fn add(
    list: &mut Rows<Account>,
    alloc: Global,
    handle: &str,
    name: &str,
    login: &str,
    admin: bool,
) -> Result<(), Memory>
    requires handle { is_plain handle.now ≡ true }
    requires name { is_plain name.now ≡ true }
    requires few { length list.old ≤ 3 }
    ensures { OnOk result (list.new ≡ list.old ++ account_row (length list.old + 1) handle.now name.now
        login.now admin ∷ []) }
{
    let num = list.as_slice().len() as u32 + 1;
    let row = Account {
        num: AccountId(num),
        handle: Name::from_plain(alloc, handle)?,
        name: Name::from_plain(alloc, name)?,
        login: digest_of(login.as_bytes()),
        admin,
        enabled: true,
    };
    list.push(row)?;
    Ok(())
}

pub(crate) fn accounts(alloc: Global) -> Result<Rows<Account>, Memory>
    ensures { IfOk result (λ rows. rows ≡ small_accounts) }
{
    let mut list = Rows::empty(alloc);
    add(&mut list, alloc, "ada", "Ada Holm", ADA_LOGIN, true)?;
    add(&mut list, alloc, "zoe", "Zoë K.", ZOE_LOGIN, false)?;
    add(&mut list, alloc, "ben", "Ben Roy", BEN_LOGIN, false)?;
    add(&mut list, alloc, "dan", "Dan Ito", DAN_LOGIN, false)?;
    Ok(list)
}
