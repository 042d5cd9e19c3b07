ghost use Rattle.std.specs.Prelude.{◌≡◌, ◌≤◌, ◌++◌, List, [], ◌∷◌, true, Some, None, IfOk, OnOk, OnErr, IsErrOf};
ghost use Rattle.host_base.specs.Outside.{Rose};
ghost use Rattle.ws_tunnel.specs.Hall.{GivesNext, Hall};

use crate::message::Message;
use std::alloc::Global;
use thiserror::Error;

/// Why a message didn't come, or wasn't put.
#[derive(Clone, Copy, Debug, PartialEq, Eq, Error)]
pub enum HallFault {
    /// The tunnel failed. It was counted.
    #[error("the tunnel failed")]
    Failed,
    /// Memory ran out.
    #[error("out of memory")]
    Memory,
}

/// Where the messages of a tunnel come from and go to. Each failure is counted. Which messages they are is told by memory alone.
pub trait Messages {
    ghost hall: { Self → Hall };

    /// Takes the next message. None at all is the end, and stays so. After a fault the same messages are left.
    fn next(&mut self, alloc: Global) -> Result<Option<Message>, HallFault>
        ensures counts { (hall self.old).faults ≤ (hall self.new).faults }
        ensures steady { OnOk result ((hall self.new).faults ≡ (hall self.old).faults) }
        ensures cause { IsErrOf result HallFault.Failed
            → Rose (hall self.old).faults (hall self.new).faults }
        ensures whole { (hall self.new).whole ≡ (hall self.old).whole }
        ensures put { (hall self.new).put ≡ (hall self.old).put }
        ensures given { (left : List Message) → (hall self.old).left ≡ Some left →
            IfOk result (λ next. GivesNext left next (hall self.new)) }
        ensures kept { OnErr result ((hall self.new).left ≡ (hall self.old).left) }
        ensures ends { IfOk result (λ next. next ≡ None → (hall self.new).ended ≡ true) }
        ensures ended { (hall self.old).ended ≡ true → IfOk result (λ next. next ≡ None) }
        ensures stays { (hall self.old).ended ≡ true → (hall self.new).ended ≡ true };

    /// Puts a message, whole or not at all.
    fn put(&mut self, alloc: Global, message: &Message) -> Result<(), HallFault>
        ensures counts { (hall self.old).faults ≤ (hall self.new).faults }
        ensures steady { OnOk result ((hall self.new).faults ≡ (hall self.old).faults) }
        ensures cause { IsErrOf result HallFault.Failed
            → Rose (hall self.old).faults (hall self.new).faults }
        ensures whole { (hall self.new).whole ≡ (hall self.old).whole }
        ensures left { (hall self.new).left ≡ (hall self.old).left }
        ensures ended { (hall self.new).ended ≡ (hall self.old).ended }
        ensures put { (before : List Message) → (hall self.old).put ≡ Some before →
            OnOk result ((hall self.new).put ≡ Some (before ++ message.now ∷ [])) }
        ensures unput { OnErr result ((hall self.new).put ≡ (hall self.old).put) };
}
