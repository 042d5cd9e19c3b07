ghost use Rattle.std.specs.Prelude.{◌≡◌, IfOk};
ghost use Rattle.small_book.specs.SmallBook.{session_row, small_sessions, run_row, small_runs};

use host_base::{AccountId, GrainId, Memory, RunId, SessionId, digest_of};
use share_graph::{Root, Rows, Run, Session};
use std::alloc::Global;

const FIRST_KEY: &str = "11111111111111111111111111111111";

const SECOND_KEY: &str = "22222222222222222222222222222222";

const THIRD_KEY: &str = "33333333333333333333333333333333";

const FOURTH_KEY: &str = "44444444444444444444444444444444";

const NOTES_TOKEN: &str = "ERERERERERERERERERERERERERERERERERERERERERE";

const POLL_TOKEN: &str = "EhISEhISEhISEhISEhISEhISEhISEhISEhISEhISEhI";

fn session(num: u32, key: &str, grain: u32, account: u32) -> Session
    ensures { result ≡ session_row num key.now grain account }
{
    Session {
        num: SessionId(num),
        digest: digest_of(key.as_bytes()),
        grain: GrainId(grain),
        root: Root::Account(AccountId(account)),
        tab: u64::from(num),
        closed: false,
    }
}

pub(crate) fn sessions(alloc: Global) -> Result<Rows<Session>, Memory>
    ensures { IfOk result (λ rows. rows ≡ small_sessions) }
{
    let mut list = Rows::empty(alloc);
    list.push(session(1, FIRST_KEY, 1, 1))?;
    list.push(session(2, SECOND_KEY, 1, 2))?;
    list.push(session(3, THIRD_KEY, 1, 3))?;
    list.push(session(4, FOURTH_KEY, 2, 3))?;
    Ok(list)
}

fn run(num: u64, grain: u32, token: &str) -> Run
    ensures { result ≡ run_row num grain token.now }
{
    Run {
        num: RunId(num),
        grain: GrainId(grain),
        digest: digest_of(token.as_bytes()),
        stopped: false,
    }
}

pub(crate) fn runs(alloc: Global) -> Result<Rows<Run>, Memory>
    ensures { IfOk result (λ rows. rows ≡ small_runs) }
{
    let mut list = Rows::empty(alloc);
    list.push(run(1, 1, NOTES_TOKEN))?;
    list.push(run(2, 2, POLL_TOKEN))?;
    Ok(list)
}
