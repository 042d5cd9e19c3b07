//! The lines as a command of `clap`.

ghost use Rattle.std.specs.Prelude.{◌≡◌, ◌≢◌, [], true, false, map, string_bytes, IfOk};
ghost use Rattle.clap.specs.Words.{app_of, fault_of, rule_of, shape_of, with_subcommand};
ghost use Rattle.clap.specs.declared.builder.Command.TheViews.{out-Command as fields_of};
ghost use Rattle.command_line.specs.Program as specs;

use clap::error::ErrorKind;
use clap::{Arg, Command};
use host_base::Memory;
use std::alloc::{AllocError, Global};

// A place that one word has to fill.
fn place<'a>(alloc: Global, id: &'a str) -> Arg<'a>
    ensures rule { rule_of result ≡ specs.place_rule id.entry.now }
    ensures local { result.global ≡ false }
{
    Arg::new(alloc, id).required(true)
}

// A command with one more place.
fn with_place<'a>(
    alloc: Global,
    command: Command<'a>,
    id: &'a str,
) -> Result<Command<'a>, AllocError>
    requires { (fields_of command).has_globals ≡ false }
    ensures app { IfOk result (λ c. app_of c ≡ specs.with_place (app_of command.entry) id.entry.now) }
    ensures local { IfOk result (λ c. (fields_of c).has_globals ≡ false) }
{
    command.arg(place(alloc, id))
}

// A command with one more place, which needn't be filled.
fn with_option<'a>(
    alloc: Global,
    command: Command<'a>,
    id: &'a str,
) -> Result<Command<'a>, AllocError>
    requires { (fields_of command).has_globals ≡ false }
    ensures app { IfOk result (λ c. app_of c ≡ specs.with_option (app_of command.entry) id.entry.now) }
    ensures local { IfOk result (λ c. (fields_of c).has_globals ≡ false) }
{
    command.arg(Arg::new(alloc, id))
}

fn play_command<'a>(alloc: Global) -> Command<'a>
    ensures app { app_of result ≡ specs.play }
    ensures local { (fields_of result).has_globals ≡ false }
{
    Command::new(alloc, "play")
}

// `serve` with the places that have to be filled.
fn serve_alone_command<'a>(alloc: Global) -> Result<Command<'a>, AllocError>
    ensures app { IfOk result (λ c. app_of c ≡ specs.serve_alone) }
    ensures local { IfOk result (λ c. (fields_of c).has_globals ≡ false) }
{
    let command = Command::new(alloc, "serve");
    let command = with_place(alloc, command, "file")?;
    let command = with_place(alloc, command, "port")?;
    with_place(alloc, command, "count")
}

fn serve_command<'a>(alloc: Global) -> Result<Command<'a>, AllocError>
    ensures app { IfOk result (λ c. app_of c ≡ specs.serve) }
    ensures local { IfOk result (λ c. (fields_of c).has_globals ≡ false) }
{
    let command = serve_alone_command(alloc)?;
    let command = with_option(alloc, command, "wsport")?;
    with_option(alloc, command, "wscount")
}

fn gen_command<'a>(alloc: Global) -> Result<Command<'a>, AllocError>
    ensures app { IfOk result (λ c. app_of c ≡ specs.gen) }
    ensures local { IfOk result (λ c. (fields_of c).has_globals ≡ false) }
{
    let command = Command::new(alloc, "gen");
    let command = with_place(alloc, command, "count")?;
    with_place(alloc, command, "seed")
}

fn check_command<'a>(alloc: Global) -> Result<Command<'a>, AllocError>
    ensures app { IfOk result (λ c. app_of c ≡ specs.check) }
    ensures local { IfOk result (λ c. (fields_of c).has_globals ≡ false) }
{
    with_place(alloc, Command::new(alloc, "check"), "file")
}

fn grain_command<'a>(alloc: Global) -> Result<Command<'a>, AllocError>
    ensures app { IfOk result (λ c. app_of c ≡ specs.grain) }
    ensures local { IfOk result (λ c. (fields_of c).has_globals ≡ false) }
{
    let command = Command::new(alloc, "grain");
    let command = with_place(alloc, command, "socket")?;
    with_place(alloc, command, "count")
}

fn access_command<'a>(alloc: Global) -> Result<Command<'a>, AllocError>
    ensures app { IfOk result (λ c. app_of c ≡ specs.access) }
    ensures local { IfOk result (λ c. (fields_of c).has_globals ≡ false) }
{
    let command = Command::new(alloc, "access");
    let command = with_place(alloc, command, "file")?;
    with_place(alloc, command, "grain")
}

fn preview_command<'a>(alloc: Global) -> Result<Command<'a>, AllocError>
    ensures app { IfOk result (λ c. app_of c ≡ specs.preview) }
    ensures local { IfOk result (λ c. (fields_of c).has_globals ≡ false) }
{
    let command = Command::new(alloc, "preview");
    let command = with_place(alloc, command, "file")?;
    with_place(alloc, command, "grant")
}

fn collect_command<'a>(alloc: Global) -> Result<Command<'a>, AllocError>
    ensures app { IfOk result (λ c. app_of c ≡ specs.collect) }
    ensures local { IfOk result (λ c. (fields_of c).has_globals ≡ false) }
{
    let command = Command::new(alloc, "collect");
    let command = with_place(alloc, command, "file")?;
    let command = with_place(alloc, command, "grain")?;
    with_place(alloc, command, "grant")
}

// The command before its subcommands.
fn bare_command<'a>(alloc: Global) -> Command<'a>
    ensures app { app_of result ≡ specs.bare }
    ensures local { (fields_of result).has_globals ≡ false }
{
    Command::new(alloc, "admin_cli")
        .no_binary_name(true)
        .disable_help_flag(true)
        .disable_help_subcommand(true)
        .subcommand_required(true)
}

// A command with one more subcommand.
fn with_line<'a>(command: Command<'a>, line: Command<'a>) -> Result<Command<'a>, AllocError>
    requires command { (fields_of command).has_globals ≡ false }
    requires line { (fields_of line).has_globals ≡ false }
    ensures app { IfOk result (λ c. app_of c ≡ with_subcommand (app_of command.entry) (shape_of line.entry)) }
    ensures local { IfOk result (λ c. (fields_of c).has_globals ≡ false) }
{
    command.subcommand(line)
}

// The command, with a subcommand for each line.
fn program_command<'a>(alloc: Global) -> Result<Command<'a>, AllocError>
    ensures { IfOk result (λ c. app_of c ≡ specs.program) }
{
    let command = with_line(bare_command(alloc), play_command(alloc))?;
    let command = with_line(command, serve_command(alloc)?)?;
    let command = with_line(command, gen_command(alloc)?)?;
    let command = with_line(command, check_command(alloc)?)?;
    let command = with_line(command, grain_command(alloc)?)?;
    let command = with_line(command, access_command(alloc)?)?;
    let command = with_line(command, preview_command(alloc)?)?;
    with_line(command, collect_command(alloc)?)
}

/// Whether the command takes the words.
pub(crate) fn is_taken(alloc: Global, words: &[String]) -> Result<bool, Memory>
    ensures taken { IfOk result (λ taken. taken ≡ true
        → fault_of specs.program (map string_bytes words.now) ≡ []) }
    ensures refused { IfOk result (λ taken. taken ≡ false
        → fault_of specs.program (map string_bytes words.now) ≢ []) }
{
    let command = program_command(alloc)?;
    match command.try_get_matches_from(words) {
        Ok(_) => Ok(true),
        Err(error) => match error.kind() {
            ErrorKind::OutOfMemory => Err(Memory),
            _ => Ok(false),
        },
    }
}
