use host_base::{AccountId, GrainId, GrantId, Names};
use plain_data::{List, Name};

/// Whom a line of a report is on: an account on a grain, with its handle, or a grant on a grain.
#[derive(Drop)]
pub enum Holder {
    User {
        account: AccountId,
        handle: Name,
        grain: GrainId,
    },
    Grant {
        grant: GrantId,
        grain: GrainId,
    },
}

/// What a holder holds, or would lose: entry, and permissions by their names, in the application's order.
#[derive(Drop)]
pub struct ReportLine {
    pub holder: Holder,
    pub entry: bool,
    pub permissions: Names,
}

/// The lines of a report.
pub type ReportLines = List<ReportLine>;
