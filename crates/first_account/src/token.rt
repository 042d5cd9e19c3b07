ghost use Rattle.std.specs.Prelude.{◌≡◌, ◌≤◌, IfOk, OnErr, IsErrOf};
ghost use Rattle.host_base.specs.Outside.{Rose};
ghost use Rattle.first_account.specs.Drawn.{IsTokenOfNext, DrewOneAtMost};

use crate::fault::FirstFault;
use host_base::{Bytes, Secrets};
use share_tokens::{Secret, token_text};
use std::alloc::Global;

/// The text of the next secret as a token.
pub(crate) fn draw_token<S: Secrets>(alloc: Global, secrets: &mut S) -> Result<Bytes, FirstFault>
    ensures counts { (S.drawer secrets.old).faults ≤ (S.drawer secrets.new).faults }
    ensures text { IfOk result (IsTokenOfNext (S.drawer secrets.old).coming (S.drawer secrets.new).coming) }
    ensures cause { IsErrOf result FirstFault.SecretsFailed
        → Rose (S.drawer secrets.old).faults (S.drawer secrets.new).faults }
    ensures kept { IsErrOf result FirstFault.SecretsFailed
        → (S.drawer secrets.new).coming ≡ (S.drawer secrets.old).coming }
    ensures drawn { OnErr result (DrewOneAtMost (S.drawer secrets.old).coming (S.drawer secrets.new).coming) }
    ensures no_store { IsErrOf result FirstFault.StoreFailed → ⊥ }
{
    let secret = secrets.draw()?;
    let text = token_text(alloc, &Secret(secret))?;
    Ok(text)
}
