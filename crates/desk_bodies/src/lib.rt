//! The bodies of the desk's routes, and of those of a running grain: what each states, or its first fault.
#![tactic(auto)]

mod bodies;
mod fault;
mod fields;
mod object;

pub use bodies::{
    AccountFields, ChildFields, ChooseFields, ClaimFields, CollectFields, GrainFields, SaveFields,
    ShareFields, TokenFields, account_field, account_fields, after_field, child_fields,
    choose_fields, claim_fields, collect_fields, grain_fields, grant_field, manifest_field,
    mark_field, no_fields, query_field, save_fields, share_fields, tab_field, token_field,
    token_fields,
};
pub use fault::BodyFault;
