//! The lines of a report, whoever asks.

ghost use Rattle.std.specs.Prelude.{Contains, IfOk};
ghost use Rattle.std.specs.List.{AllZip};
ghost use Rattle.access_report.specs.declared.entry.Entry as the_entry;
ghost use Rattle.access_report.specs.declared.loss.Loss as the_loss;
ghost use Rattle.live_access.specs.Kept.{IsSolvedFor};
ghost use Rattle.share_graph.specs.Checked.{IsChecked};
ghost use Rattle.share_graph.specs.Coherent.{IsCoherent};
ghost use Rattle.share_graph.specs.Known.{HasGrain, HasGrant, KnowsNode};
ghost use Rattle.report_desk.specs.Lines.{AreAccessLines, AreLossLines, IsEntryLine, IsLossLine};

use crate::holder::{ReportLine, ReportLines};
use crate::naming::line_of;
use access_report::{Entry, Loss, preview, who};
use host_base::{GrainId, GrantId, Memory};
use least_access::Held;
use live_access::Solution;
use plain_data::List;
use share_graph::Tables;
use std::alloc::Global;

// A line of each entry.
fn entry_lines(alloc: Global, tables: &Tables, entries: &[Entry]) -> Result<Vec<ReportLine>, Memory>
    requires coherent { IsCoherent tables.now }
    requires there { (entry : the_entry.Entry) → Contains entries.now entry → KnowsNode tables.now entry.node }
    ensures { IfOk result (λ lines. AllZip (IsEntryLine tables.now) entries.now lines.items) }
{
    let mut lines = Vec::new(alloc);
    for entry in entries {
        let held = Held {
            entry: true,
            perms: entry.perms,
        };
        lines.push(line_of(alloc, tables, entry.node, held)?)?;
    }
    Ok(lines)
}

// A line of each loss.
fn losses_lines(alloc: Global, tables: &Tables, losses: &[Loss]) -> Result<Vec<ReportLine>, Memory>
    requires coherent { IsCoherent tables.now }
    requires there { (loss : the_loss.Loss) → Contains losses.now loss → KnowsNode tables.now loss.node }
    ensures { IfOk result (λ lines. AllZip (IsLossLine tables.now) losses.now lines.items) }
{
    let mut lines = Vec::new(alloc);
    for loss in losses {
        let held = Held {
            entry: loss.entry,
            perms: loss.perms,
        };
        lines.push(line_of(alloc, tables, loss.node, held)?)?;
    }
    Ok(lines)
}

/// Who has access to a grain that is there: a line of each node that holds entry, users by number, then grants by
/// number.
pub fn access_lines(
    alloc: Global,
    tables: &Tables,
    solution: &Solution,
    grain: GrainId,
) -> Result<ReportLines, Memory>
    requires checked { IsChecked tables.now }
    requires there { HasGrain tables.now grain }
    requires solved { IsSolvedFor tables.now solution.now }
    ensures { IfOk result (AreAccessLines tables.now grain) }
{
    let entries = who(alloc, tables, solution.solved(), solution.ties(), grain)?;
    let lines = entry_lines(alloc, tables, entries.as_slice())?;
    Ok(List::new(lines))
}

/// What revoking a grant that is there would take: a line of each loss, users by grain and account, then grants by
/// number.
pub fn loss_lines(
    alloc: Global,
    tables: &Tables,
    solution: &Solution,
    grant: GrantId,
) -> Result<ReportLines, Memory>
    requires checked { IsChecked tables.now }
    requires there { HasGrant tables.now grant }
    requires solved { IsSolvedFor tables.now solution.now }
    ensures { IfOk result (AreLossLines tables.now grant) }
{
    let losses = preview(
        alloc,
        tables,
        solution.solved(),
        solution.edges(),
        solution.arrivals(),
        grant,
    )?;
    let lines = losses_lines(alloc, tables, losses.as_slice())?;
    Ok(List::new(lines))
}
