//! What the sites have of what an order chooses, and the list of what may be chosen.

ghost use Rattle.std.specs.Prelude.{◌≡◌, ◌++◌, Bool, IfOk, OnOk, map};
ghost use Rattle.std.specs.List.{filter_map};
ghost use Rattle.desk_base.specs.Outcomes.{IsAnswered};
ghost use Rattle.desk_base.specs.Terms.{IsSolutionOf, IsWellFormed};
ghost use Rattle.saved_refs.specs.Options.{Options};
ghost use Rattle.desk_orders.specs.Sites.{AreListed, IsAdminBy, IsFound, IsFoundOf, IsFoundBy, site_listed, grain_listed, those_of, sites_listed};

use crate::order::{Command, Order};
use desk_base::{caller_on, secret_of};
use host_base::{GrainId, Memory};
use least_access::Solved;
use plain_data::List;
use powerbox_match::{Choice, Quality, Query, matches};
use saved_refs::{Listed, grain_options};
use share_graph::{Caller, DeskFault, Offer, State, by_login};
use site_caps::{Registry, SiteDriver, SiteFault, SiteOffer};
use std::alloc::{AllocError, Global};
use std::slice;

// Whether the caller's account is an admin.
fn is_admin(state: &State, caller: &Caller) -> bool
    requires { IsWellFormed state.now }
    ensures { IsAdminBy state.now caller.now result }
{
    match by_login(&state.tables, &secret_of(caller)) {
        Some(account) => account.admin,
        None => false,
    }
}

// Whether a site offers an item for admins alone, or nothing where it isn't offered.
fn found_item<C: SiteDriver + Drop>(
    alloc: Global,
    state: &State,
    sites: &Registry<C>,
    caller: &Caller,
    query: &Query,
    tag: u64,
    item: u32,
) -> Result<Option<bool>, Memory>
    requires { IsWellFormed state.now }
    ensures { IfOk result (λ found. (admin : Bool)
        × IsAdminBy state.now caller.now admin × IsFound C.Law.law query.now admin tag item found) }
{
    match sites.find(alloc, query, is_admin(state, caller), tag, item) {
        Ok(offer) => Ok(Some(offer.admin_only)),
        Err(SiteFault::NoDriver(_)) | Err(SiteFault::NotOffered(_, _)) => Ok(None),
        Err(SiteFault::TwoDrivers(_)) => Ok(None),
        Err(SiteFault::Memory) => Err(Memory),
    }
}

// What the sites have of an offer: a grain is no item of a site.
fn found_of_offer<C: SiteDriver + Drop>(
    alloc: Global,
    state: &State,
    sites: &Registry<C>,
    caller: &Caller,
    query: &Query,
    offer: &Offer,
) -> Result<Option<bool>, Memory>
    requires { IsWellFormed state.now }
    ensures { IfOk result (IsFoundOf C.Law.law state.now caller.now query.now offer.now) }
{
    match offer {
        Offer::Site { tag, item } => found_item(alloc, state, sites, caller, query, *tag, *item),
        Offer::Grain(_) => Ok(None),
    }
}

/// What the sites have of the item that an order chooses: whether it is offered for admins alone, or nothing where it isn't offered, or none
/// is chosen. Where the caller has no access to the grain that it is chosen for, no site is asked.
pub fn found_of<C: SiteDriver + Drop>(
    alloc: Global,
    state: &State,
    solved: &Solved,
    sites: &Registry<C>,
    order: &Order,
) -> Result<Option<bool>, Memory>
    requires formed { IsWellFormed state.now }
    requires solution { IsSolutionOf state.now.tables solved.now }
    ensures { IfOk result (IsFoundBy C.Law.law state.now order.now.caller order.now.command) }
{
    match &order.command {
        Command::Choose {
            grain,
            offer,
            query,
            ..
        } => match caller_on(state, solved, &order.caller, *grain) {
            Ok(_) => found_of_offer(alloc, state, sites, &order.caller, query, offer),
            Err(_) => Ok(None),
        },
        _ => Ok(None),
    }
}

// A grain that may be chosen.
fn grain_of(choice: &Choice) -> Listed
    ensures { result ≡ grain_listed choice.now }
{
    Listed {
        offer: Offer::Grain(GrainId(choice.num)),
        quality: choice.quality,
    }
}

// The grains that may be chosen.
fn grains_of(alloc: Global, choices: &[Choice]) -> Result<Vec<Listed>, AllocError>
    ensures { IfOk result (λ list. list.items ≡ map grain_listed choices.now) }
{
    choices.iter().map(|choice| grain_of(choice)).collect(alloc)
}

// An offer of a site, and how well it matches.
fn offer_of(query: &Query, told: &(u64, SiteOffer)) -> Option<Listed>
    ensures { result ≡ site_listed query.now told.now }
{
    let (tag, offer) = told;
    let quality = matches(query, slice::from_ref(&offer.descriptor))?;
    Some(Listed {
        offer: Offer::Site {
            tag: *tag,
            item: offer.item,
        },
        quality,
    })
}

// The offers of sites, and how well they match.
fn offers_of(
    alloc: Global,
    query: &Query,
    told: &[(u64, SiteOffer)],
) -> Result<Vec<Listed>, AllocError>
    ensures { IfOk result (λ list. list.items ≡ filter_map (site_listed query.now) told.now) }
{
    told.iter()
        .filter_map(|one| offer_of(query, one))
        .collect(alloc)
}

// Appends those of a quality.
fn append_those(
    list: &mut Vec<Listed>,
    quality: Quality,
    listed: &[Listed],
) -> Result<(), AllocError>
    ensures { OnOk result (list.new.items ≡ list.old.items ++ those_of quality listed.now) }
{
    for one in listed {
        if one.quality == quality {
            list.push(*one)?;
        }
    }
    Ok(())
}

// What may be chosen: the grains, and then what the sites offer, preferred ones first.
fn joined(
    alloc: Global,
    query: &Query,
    choices: &[Choice],
    told: &[(u64, SiteOffer)],
) -> Result<List<Listed>, AllocError>
    ensures { IfOk result (λ list. list
        ≡ map grain_listed choices.now ++ sites_listed query.now told.now) }
{
    let mut list = grains_of(alloc, choices)?;
    let offers = offers_of(alloc, query, told)?;
    append_those(&mut list, Quality::Preferred, &offers)?;
    append_those(&mut list, Quality::Acceptable, &offers)?;
    Ok(List::new(list))
}

/// What may be chosen for a grain, of what matches a query: by its row, with the offers of the sites.
pub(crate) fn options_of<C: SiteDriver + Drop>(
    alloc: Global,
    state: &State,
    solved: &Solved,
    sites: &Registry<C>,
    caller: &Caller,
    num: GrainId,
    query: &Query,
) -> Result<List<Listed>, DeskFault>
    requires formed { IsWellFormed state.now }
    requires solution { IsSolutionOf state.now.tables solved.now }
    ensures { IsAnswered (Options state.now caller.now num)
        (AreListed C.Law.law state.now caller.now num query.now) result }
{
    let choices = grain_options(alloc, state, solved, caller, num, query)?;
    let told = sites.options(alloc, query, is_admin(state, caller))?;
    joined(alloc, query, choices.as_slice(), &told).map_err(|_| DeskFault::Memory)
}
