ghost use Rattle.std.specs.Prelude.{◌≡◌};
ghost use Rattle.std.specs.Option.{option_copied};
ghost use Rattle.share_graph.specs.Rows.{row};

use crate::grants::Grant;
use crate::rows::{Account, App, Grain, Saved};
use crate::sessions::{Run, Session};
use crate::state::{State, Tables};
use host_base::{AccountId, AppId, GrainId, GrantId, RunId, SavedId, SessionId};

// Row `num` of a list, counted from 1.
pub(crate) fn row_at<T>(rows: &[T], num: u64) -> Option<&T>
    ensures { option_copied result ≡ row rows.now num }
{
    if num == 0 {
        return None;
    }
    rows.get(num as usize - 1)
}

/// The account of a number.
pub fn account(tables: &Tables, num: AccountId) -> Option<&Account>
    ensures { option_copied result ≡ row tables.now.accounts num.0 }
{
    row_at(tables.accounts.as_slice(), u64::from(num.0))
}

/// The application of a number.
pub fn app(tables: &Tables, num: AppId) -> Option<&App>
    ensures { option_copied result ≡ row tables.now.apps num.0 }
{
    row_at(tables.apps.as_slice(), u64::from(num.0))
}

/// The grain of a number.
pub fn grain(tables: &Tables, num: GrainId) -> Option<&Grain>
    ensures { option_copied result ≡ row tables.now.grains num.0 }
{
    row_at(tables.grains.as_slice(), u64::from(num.0))
}

/// The grant of a number.
pub fn grant(tables: &Tables, num: GrantId) -> Option<&Grant>
    ensures { option_copied result ≡ row tables.now.grants num.0 }
{
    row_at(tables.grants.as_slice(), u64::from(num.0))
}

/// The saved reference of a number.
pub fn saved(tables: &Tables, num: SavedId) -> Option<&Saved>
    ensures { option_copied result ≡ row tables.now.saved num.0 }
{
    row_at(tables.saved.as_slice(), u64::from(num.0))
}

/// The session of a number.
pub fn session(state: &State, num: SessionId) -> Option<&Session>
    ensures { option_copied result ≡ row state.now.sessions num.0 }
{
    row_at(state.sessions.as_slice(), u64::from(num.0))
}

/// The run of a number.
pub fn run(state: &State, num: RunId) -> Option<&Run>
    ensures { option_copied result ≡ row state.now.runs num.0 }
{
    row_at(state.runs.as_slice(), num.0)
}
