//! What whoever gives does: an account that shares or makes a token, and a bearer that makes a further one.

ghost use Rattle.desk_base.specs.Terms.{HasGrain, IsWellFormed};
ghost use Rattle.desk_base.specs.Outcomes.{IsCarried};
ghost use Rattle.share_desk.specs.Commands.{Gives};

use desk_base::{
    Answer, add_grant, draft_grant, given_role, good_expiry, good_needs, has_grant_room,
};
use host_base::GrainId;
use perm_roles::Assignment;
use share_graph::{Giver, Need, Needs, State, Target};
use std::alloc::Global;

// Gives what an assignment says, under needs and until the expiry, on a grain that is there. Whoever bears a token gets
// one, which is drawn.
pub(crate) fn give(
    alloc: Global,
    state: &State,
    num: GrainId,
    giver: Giver,
    target: Target,
    assignment: &Assignment,
    needs: &[Need],
    expires: Option<u64>,
) -> Answer
    requires formed { IsWellFormed state.now }
    requires there { HasGrain state.now.tables num }
    ensures { IsCarried (Gives state.now num giver target assignment.now needs.now expires) result }
{
    given_role(&state.tables, num, assignment)?;
    good_needs(&state.tables, needs)?;
    good_expiry(&state.tables, expires)?;
    has_grant_room(&state.tables)?;
    let kept = needs.to_vec(alloc)?;
    let needs = Needs::new(kept);
    match target {
        Target::Bearer { .. } => Ok(draft_grant(
            state,
            num,
            giver,
            target,
            *assignment,
            needs,
            expires,
        )),
        _ => Ok(add_grant(state, num, giver, target, *assignment, needs, expires)),
    }
}
