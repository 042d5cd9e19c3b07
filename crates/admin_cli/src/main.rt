// The program: serves connections on a port from a file of rows, and tunnels on another one, serves one connection over standard input
// and output from the small book, serves requests that it makes itself, judges a file of rows, or is a grain on a socket.
#![tactic(auto)]

use admin_host::{Aside, NO_MEMORY, Plan, Tie, plan_of, status_at_end, status_of};
use std::process::ExitCode;
use std::thread;
use system_edges::wait_for_end;

// In `main` alone the host runtime starts threads.
fn main(rt: HostRuntime) -> ExitCode {
    let Ok(plan) = plan_of(&rt) else {
        return ExitCode::from(NO_MEMORY);
    };
    let Plan {
        words,
        post,
        aside,
        tie,
    } = plan;
    if let Some(
        Aside {
            acceptor,
            tunnels,
            logs,
        },
    ) = aside
    {
        if thread::spawn(&rt, move || acceptor.run(&rt)).is_err()
            || thread::spawn(&rt, move || logs.run(&rt)).is_err()
        {
            return ExitCode::from(NO_MEMORY);
        }
        if let Some(tunnels) = tunnels
            && thread::spawn(&rt, move || tunnels.run(&rt)).is_err()
        {
            return ExitCode::from(NO_MEMORY);
        }
    }
    let Some(tie) = tie else {
        return ExitCode::from(status_of(&rt, &rt, words.as_slice(), post));
    };
    let Tie {
        is_grain,
        activity,
        done,
        input_ended,
        ends,
    } = tie;
    let working = thread::spawn(&rt, move || {
        let status = status_of(&rt, &rt, words.as_slice(), post);
        let _ = done.send(&rt, Some(status));
    });
    let waiting = thread::spawn(&rt, move || {
        if wait_for_end(&rt, rt.alloc(), &rt.stdin()).is_ok() {
            let _ = input_ended.send(&rt, None);
        }
    });
    if working.is_err() || waiting.is_err() {
        return ExitCode::from(NO_MEMORY);
    }
    status_at_end(&rt, &ends, is_grain, &activity)
}
