//! The desk of lists: the accounts and applications, the grains that an account enters, and the grants on a grain, each
//! in pages by number.
#![tactic(auto)]

mod asking;
mod entering;
mod giving;
mod line;
mod of_accounts;
mod of_apps;
mod page;

pub use asking::{Page, Subject, list};
pub use line::{
    AccountLine, AccountLines, AppLine, AppLines, GivenTo, GrainLine, GrainLines, GrantLine,
    GrantLines, RoleLine,
};
pub use page::PAGE;
