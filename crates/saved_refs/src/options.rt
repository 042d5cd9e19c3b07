//! What may be chosen.

ghost use Rattle.desk_base.specs.Terms.{IsOne, IsSolutionOf, IsWellFormed};
ghost use Rattle.desk_base.specs.Outcomes.{IsAnswered};
ghost use Rattle.saved_refs.specs.Options.{Options, AreOptions};

use crate::choosing::{append_those, choices_of};
use desk_base::caller_on;
use host_base::GrainId;
use least_access::Solved;
use plain_data::List;
use powerbox_match::{Choice, Quality, Query};
use share_graph::{Caller, DeskFault, State};
use std::alloc::Global;

/// Grains to choose from: preferred ones first, then by number.
pub type GrainChoices = List<Choice>;

/// The grains that the caller may choose for a grain: others to which it has access, and of whose application some offer matches the
/// query. Only the grains that the caller's account enters are looked at, and the query is matched once with the offers of each
/// application of these.
#[tactic(auto, using(crate::proofs::OneRow::options_one, crate::proofs::OneList::options_one_list))]
pub fn grain_options(
    alloc: Global,
    state: &State,
    solved: &Solved,
    caller: &Caller,
    num: GrainId,
    query: &Query,
) -> Result<GrainChoices, DeskFault>
    requires formed { IsWellFormed state.now }
    requires solution { IsSolutionOf state.now.tables solved.now }
    ensures row { IsAnswered (Options state.now caller.now num)
        (AreOptions state.now caller.now num query.now) result }
    ensures one { IsOne (Options state.now caller.now num) }
    ensures one_list { IsOne (AreOptions state.now caller.now num query.now) }
{
    let account = match caller_on(state, solved, caller, num) {
        Ok(account) => account.num,
        Err(refusal) => return Err(DeskFault::Refused(refusal)),
    };
    let grains = solved.entered(alloc, account)?;
    let found = choices_of(alloc, &state.tables, query, num, grains.as_slice())?;
    let mut choices = Vec::new(alloc);
    append_those(&mut choices, Quality::Preferred, found.as_slice())?;
    append_those(&mut choices, Quality::Acceptable, found.as_slice())?;
    Ok(List::new(choices))
}
