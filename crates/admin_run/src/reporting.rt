//! `access` and `preview`: who has access to a grain, and what revoking a grant would take, by the rows of a keeper.
ghost use Rattle.std.specs.Prelude.{◌≡◌, ◌≢◌, ◌≤◌, ◌⊎◌, codes, IfOk};
ghost use Rattle.host_base.specs.Outside.{Rose};
ghost use Rattle.cloud_keeper.specs.Keeping.{RowsFollow};
ghost use Rattle.hub_core.specs.Opening.{opened};
ghost use Rattle.share_graph.specs.WellFormed.{IsWellFormed};
ghost use Rattle.admin_run.specs.declared.reporting.Subject.TheVariants as the_subject;
ghost use Rattle.admin_run.specs.Reporting.{IsReportOn, Reports, ReportsRows, TellsReport};

use crate::lines::bad_row_line;
use crate::telling::{tell, tell_line};
use cloud_keeper::{KeepFault, Keeper, Row};
use host_base::{Bytes, GrainId, GrantId, Memory, Sink};
use live_access::solve;
use report_desk::{access_lines, loss_lines};
use report_texts::{access_text, preview_text};
use row_tables::{LoadFault, tables_of};
use share_graph::{Tables, has_grain, has_grant};
use std::alloc::Global;

/// What a report is on: who has access to a grain, or what revoking a grant would take.
#[derive(Clone, Copy)]
pub enum Subject {
    Access(GrainId),
    Preview(GrantId),
}

// What is printed of a report.
#[derive(Drop)]
struct Told {
    text: Bytes,
    status: u8,
}

// What is printed where there is no row of the number.
fn unknown(alloc: Global) -> Result<Told, Memory>
    ensures { IfOk result (λ told. (told.text ≡ codes "unknown\n") × (told.status ≡ 11)) }
{
    let mut text = Bytes::empty(alloc);
    text.put(b"unknown\n")?;
    Ok(Told { text, status: 11 })
}

// Who has access to the grain of a number.
fn access_report(alloc: Global, tables: &Tables, num: GrainId) -> Result<Told, Memory>
    requires { IsWellFormed (opened tables.now) }
    ensures { IfOk result (λ told. IsReportOn tables.now (the_subject.Access num) told.text told.status) }
{
    if !has_grain(tables, num) {
        return unknown(alloc);
    }
    let solution = solve(alloc, tables)?;
    let lines = access_lines(alloc, tables, &solution, num)?;
    let text = access_text(alloc, lines.as_slice())?;
    Ok(Told { text, status: 0 })
}

// What revoking the grant of a number would take.
fn preview_report(alloc: Global, tables: &Tables, num: GrantId) -> Result<Told, Memory>
    requires { IsWellFormed (opened tables.now) }
    ensures { IfOk result (λ told. IsReportOn tables.now (the_subject.Preview num) told.text told.status) }
{
    if !has_grant(tables, num) {
        return unknown(alloc);
    }
    let solution = solve(alloc, tables)?;
    let lines = loss_lines(alloc, tables, &solution, num)?;
    let text = preview_text(alloc, lines.as_slice())?;
    Ok(Told { text, status: 0 })
}

// Prints the report on tables.
fn report_tables<O: Sink>(alloc: Global, out: &mut O, tables: &Tables, asked: Subject) -> u8
    requires { IsWellFormed (opened tables.now) }
    ensures reported { TellsReport asked (O.outlet out.old) (O.outlet out.new) tables.now result
        ⊎ ((result ≡ 7) × (O.outlet out.new ≡ O.outlet out.old)) }
    ensures counts { (O.outlet out.old).faults ≤ (O.outlet out.new).faults }
    ensures cause { result ≡ 5 → Rose (O.outlet out.old).faults (O.outlet out.new).faults }
    ensures unread { result ≢ 4 }
    ensures kept { result ≢ 9 }
{
    let told = match asked {
        Subject::Access(num) => access_report(alloc, tables, num),
        Subject::Preview(num) => preview_report(alloc, tables, num),
    };
    match told {
        Ok(told) => tell(out, told.text.as_slice(), told.status),
        Err(Memory) => 7,
    }
}

// Prints the report on the tables that rows state, at a moment, or which row is bad.
fn report_rows<O: Sink>(alloc: Global, out: &mut O, rows: &[Row], moment: u64, asked: Subject) -> u8
    ensures reported { ReportsRows asked moment (O.outlet out.old) (O.outlet out.new) rows.now result }
    ensures counts { (O.outlet out.old).faults ≤ (O.outlet out.new).faults }
    ensures cause { result ≡ 5 → Rose (O.outlet out.old).faults (O.outlet out.new).faults }
    ensures unread { result ≢ 4 }
    ensures kept { result ≢ 9 }
{
    match tables_of(alloc, rows) {
        Ok(mut tables) => {
            tables.moment = moment;
            report_tables(alloc, out, &tables, asked)
        }
        Err(LoadFault::BadRow(bad)) => match bad_row_line(alloc, bad.index) {
            Ok(line) => tell_line(out, line, 10),
            Err(_) => 7,
        },
        Err(LoadFault::Memory) => 7,
    }
}

/// Loads the rows of a keeper and prints the report on the tables that they state, at a moment. The status is 0, or 11 where there is no
/// such grain or grant, 10 where a row is bad, 9 where the keeper failed, 7 where memory ran out, and 5 where the text couldn't be printed.
#[tactic(auto, using(crate::proofs::First::of_keeper))]
pub(crate) fn report<O: Sink, K: Keeper>(
    alloc: Global,
    out: &mut O,
    keeper: &mut K,
    moment: u64,
    asked: Subject,
) -> u8
    ensures reported { Reports asked moment (O.outlet out.old) (O.outlet out.new) (K.keeping keeper.old)
        (K.keeping keeper.new) result }
    ensures kept { RowsFollow (K.keeping keeper.old) (K.keeping keeper.new) (λ rows. rows) }
    ensures cause { result ≡ 5 → Rose (O.outlet out.old).faults (O.outlet out.new).faults }
    ensures store { result ≡ 9 → Rose (K.keeping keeper.old).faults (K.keeping keeper.new).faults }
    ensures unread { result ≢ 4 }
{
    match keeper.load(alloc) {
        Ok(rows) => report_rows(alloc, out, rows.as_slice(), moment, asked),
        Err(KeepFault::StoreFailed) => 9,
        Err(KeepFault::Memory) => 7,
    }
}
