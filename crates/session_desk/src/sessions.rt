ghost use Rattle.std.specs.Prelude.{◌≡◌, ◌<◌, ◌-◌, ◌^◌, Some, None, MatchResult, length, true, false};
ghost use Rattle.share_graph.specs.declared.fault.Kind.TheVariants as kind;
ghost use Rattle.share_graph.specs.declared.refusal.Refusal.TheVariants as refusal;
ghost use Rattle.desk_base.specs.Terms.{IsOne, IsSolutionOf, IsWellFormed, none};
ghost use Rattle.share_graph.specs.Rows.{IsSession};
ghost use Rattle.desk_base.specs.Fitting.{RowFits};
ghost use Rattle.desk_base.specs.Outcomes.{IsCarriedExactly};
ghost use Rattle.session_desk.specs.Calling.{NamesGrain};
ghost use Rattle.session_desk.specs.Commands.{OpenSession, CloseSession};
ghost use Rattle.session_desk.specs.Rows.{session_limit};

use crate::callers::{actor_of, caller_root};
use desk_base::{Answer, BLANK, Draft, NOTHING, Outcome, Stop, has_room};
use host_base::{GrainId, SessionId};
use least_access::Solved;
use share_graph::{
    Caller, Event, Kind, Made, Refusal, Root, Session, State, session as find_session,
};
use state_step::ROOT_SESSIONS;

// Whether a root may open one more session. Where it has 32 open ones it may, since one of its own is closed for that.
fn has_session_room(state: &State, root: Root) -> Result<(), Refusal>
    ensures { let over = session_limit state.now root in
        MatchResult result (λ _. over ≡ None) (λ refusal. over ≡ Some refusal) }
{
    if state.sessions.open_of(root) >= ROOT_SESSIONS {
        return Ok(());
    }
    has_room(Kind::Session, state.sessions.open_count() as u64)
}

/// Opens a session, whose key is drawn: on the grain that a login names and has access to, or on that of a bearer's
/// grant. Its tab is the named one, else its own number. The reply shows its number.
pub fn open_session(
    state: &State,
    solved: &Solved,
    caller: &Caller,
    num: Option<GrainId>,
    tab: Option<u64>,
) -> Answer
    requires formed { IsWellFormed state.now }
    requires few { length state.now.sessions < 2 ^ 32 - 1 }
    requires solution { IsSolutionOf state.now.tables solved.now }
    requires named { NamesGrain caller.now num }
    ensures row { IsCarriedExactly (OpenSession state.now caller.now num tab) result }
    ensures one { IsOne (OpenSession state.now caller.now num tab) }
    ensures fits { RowFits state.now true (OpenSession state.now caller.now num tab) }
{
    let actor = actor_of(state, solved, caller, num)?;
    has_session_room(state, actor.root)?;
    let next = state.sessions.as_slice().len() as u32 + 1;
    let session = Session {
        num: SessionId(next),
        digest: BLANK,
        grain: actor.grain,
        root: actor.root,
        tab: tab.unwrap_or(u64::from(next)),
        closed: false,
    };
    let made = Made {
        session: Some(next),
        ..NOTHING
    };
    let event = Event::SessionOpened(session);
    Ok(Outcome::Draft(Draft { event, made }))
}

// The session of a number.
fn known_session(state: &State, num: SessionId) -> Result<&Session, Refusal>
    ensures { MatchResult result (λ row. IsSession state.now num row.now)
        (none (IsSession state.now num) (refusal.Unknown kind.Session num.0)) }
{
    find_session(state, num).ok_or(Refusal::Unknown(Kind::Session, num.0))
}

/// Closes a session, which whoever it acts as may: the account of a login, or the bearer of a grant. Where it is closed
/// nothing is to be done.
#[tactic(auto, using(crate::proofs::OneRows::close_session_one, crate::proofs::FitRows::close_session_fits))]
pub fn close_session(state: &State, solved: &Solved, caller: &Caller, num: SessionId) -> Answer
    requires formed { IsWellFormed state.now }
    requires solution { IsSolutionOf state.now.tables solved.now }
    ensures row { IsCarriedExactly (CloseSession state.now caller.now num) result }
    ensures one { IsOne (CloseSession state.now caller.now num) }
    ensures fits { RowFits state.now false (CloseSession state.now caller.now num) }
{
    let root = caller_root(state, solved, caller)?;
    let session = known_session(state, num)?;
    if session.root != root {
        return Err(Stop::Refused(Refusal::NotOwner(session.grain)));
    }
    if session.closed {
        return Err(Stop::Same(NOTHING));
    }
    Ok(Outcome::Change(Event::SessionClosed(num), NOTHING))
}
