//! The secrets that commands need, and the texts by which they are known.

ghost use Rattle.std.specs.Prelude.{◌≡◌, IfOk};
ghost use Rattle.desk_orders.specs.Commands as commands;
ghost use Rattle.desk_orders.specs.Secrets as texts;

use crate::order::{Command, Order};
use host_base::{Bytes, Memory};
use share_tokens::{Secret, key_text, token_text};
use std::alloc::Global;

/// What a secret is for.
#[derive(Clone, Copy, PartialEq, Eq)]
pub enum SecretUse {
    /// It is the key of a session that is opened.
    Session,
    /// It is the token of a run that is started, and handed to the run alone.
    Run,
    /// It is a token or a login that is handed out.
    Token,
}

/// What the secret is for that is drawn for a command, or none where the command needs none.
pub fn secret_use(command: &Command) -> Option<SecretUse>
    ensures { result ≡ commands.secret_use command.now }
{
    match command {
        Command::OpenSession { .. } => Some(SecretUse::Session),
        Command::StartRun(_) => Some(SecretUse::Run),
        Command::AddAccount(_, _) | Command::RenewLogin(_) => Some(SecretUse::Token),
        Command::MakeToken { .. } | Command::Child { .. } => Some(SecretUse::Token),
        Command::Choose { .. } | Command::Save { .. } => Some(SecretUse::Token),
        _ => None,
    }
}

/// Whether a command needs a secret, which is drawn for it.
pub fn draws(command: &Command) -> bool
    ensures { result ≡ commands.draws command.now }
{
    secret_use(command).is_some()
}

/// The text of the secret that is drawn for an order.
#[tactic(auto, unfolding(crate::specs::Secrets::secret_text))]
pub fn secret_text(alloc: Global, order: &Order, secret: &Secret) -> Result<Bytes, Memory>
    ensures { IfOk result (λ text. text ≡ texts.secret_text order.now.command secret.now.0) }
{
    match secret_use(&order.command) {
        Some(SecretUse::Session) => key_text(alloc, secret),
        _ => token_text(alloc, secret),
    }
}

/// What the reply to an order shows of the text of its secret.
pub fn shown_text(order: &Order, text: Bytes) -> Option<Bytes>
    ensures { result ≡ texts.shown_by (commands.secret_use order.now.command) text }
{
    match secret_use(&order.command) {
        Some(SecretUse::Run) => None,
        _ => Some(text),
    }
}
