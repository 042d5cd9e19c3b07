ghost use Rattle.std.specs.Prelude.{◌≡◌, ◌≤◌, Some, IfOk, OnOk, OnErr, is_ok, not, ◌&&◌};
ghost use Rattle.host_base.specs.CallCounts.{fails_next};
ghost use Rattle.host_base.specs.Drawing.{Drawer, Draws, Listed, Counted, seq_secret, is_any_left, after_draw};
ghost use Rattle.host_base.specs.Outside.{Rose};

use crate::call_count::{CallCount, Fails};
use plain_data::List;
use std::marker::Model;
use thiserror::Error;

/// A secret couldn't be drawn.
#[derive(Clone, Copy, Debug, PartialEq, Eq, Error)]
#[error("a secret couldn't be drawn")]
pub struct DrawFailed;

/// What secrets of 32 bytes are drawn from. Each failure is counted. What is still to come is told by the forms in memory alone.
pub trait Secrets {
    ghost drawer: { Self → Drawer };

    /// Draws the next secret. After a failure what is to come is unchanged.
    fn draw(&mut self) -> Result<[u8; 32], DrawFailed>
        ensures counts { (drawer self.old).faults ≤ (drawer self.new).faults }
        ensures steady { OnOk result ((drawer self.new).faults ≡ (drawer self.old).faults) }
        ensures cause { OnErr result (Rose (drawer self.old).faults (drawer self.new).faults) }
        ensures drawn { IfOk result (Draws (drawer self.old).coming (drawer self.new).coming) }
        ensures kept { OnErr result ((drawer self.new).coming ≡ (drawer self.old).coming) };
}

/// Secrets in sequence: the one of number i, from 1 on, is eight times the four bytes of i, big end first, where i is counted
/// below 2^32. It never fails.
#[derive(Debug, Drop)]
pub struct SeqSecrets {
    drawn: u32,
}

impl Model for SeqSecrets {
    ghost use Rattle.std.specs.Prelude.{ℕ};

    ghost Value = { ℕ };

    ghost view = { λ secrets. secrets.drawn };
}

impl SeqSecrets {
    /// The sequence from its first secret on.
    pub fn new() -> Self
        ensures { result ≡ 0 }
    {
        SeqSecrets { drawn: 0 }
    }

    /// The sequence behind the secret of a number.
    pub fn behind(number: u32) -> Self
        ensures { result ≡ number }
    {
        SeqSecrets { drawn: number }
    }
}

fn seq_secret(number: u32) -> [u8; 32]
    ensures { result ≡ seq_secret number }
{
    let [a, b, c, d] = number.to_be_bytes();
    [
        a, b, c, d, a, b, c, d, a, b, c, d, a, b, c, d, a, b, c, d, a, b, c, d, a, b, c, d, a, b,
        c, d,
    ]
}

impl Secrets for SeqSecrets {
    ghost drawer = { λ drawn. record { faults = 0; coming = Some (Counted drawn) } };

    fn draw(&mut self) -> Result<[u8; 32], DrawFailed> {
        self.drawn = self.drawn.wrapping_add(1);
        Ok(seq_secret(self.drawn))
    }
}

/// A list of secrets, drawn in its order. It fails exactly at the calls that were listed, and past its end.
pub struct ListSecrets {
    secrets: List<[u8; 32]>,
    drawn: usize,
    count: CallCount,
}

// Written by hand: a proof then has one call wherever one is let go.
impl Drop for ListSecrets {
    fn drop(self) {
        let ListSecrets {
            secrets: _,
            drawn: _,
            count: _,
        } = self;
    }
}

impl Model for ListSecrets {
    ghost use Rattle.std.specs.Prelude.{drop};
    ghost use Rattle.host_base.specs.Drawing.{ListedSecrets};

    ghost Value = { ListedSecrets };

    ghost view = { λ s. record { left = drop s.drawn s.secrets; count = s.count } };
}

impl ListSecrets {
    /// The secrets of a list.
    pub fn new(secrets: List<[u8; 32]>, fails: Fails) -> Self
        ensures { result ≡ record {
          left = secrets;
          count = record { calls = 0; faults = 0; listed = fails };
        } }
    {
        ListSecrets {
            secrets,
            drawn: 0,
            count: CallCount::new(fails),
        }
    }

    /// How many faults there were.
    pub fn faults(&self) -> u64
        ensures { result ≡ self.now.count.faults }
    {
        self.count.faults()
    }
}

impl Secrets for ListSecrets {
    ghost drawer = { λ s. record { faults = s.count.faults; coming = Some (Listed s.left) } };

    fn draw(&mut self) -> Result<[u8; 32], DrawFailed>
        ensures counts { self.old.count.faults ≤ self.new.count.faults }
        ensures steady { OnOk result (self.new.count.faults ≡ self.old.count.faults) }
        ensures cause { OnErr result (Rose self.old.count.faults self.new.count.faults) }
        ensures drawn { IfOk result (Draws (Some (Listed self.old.left)) (Some (Listed self.new.left))) }
        ensures kept { OnErr result (Some (Listed self.new.left) ≡ Some (Listed self.old.left)) }

        // It fails exactly where the call is listed or nothing is left, which counts one fault.
        ensures listed { is_ok result ≡ (not (fails_next self.old.count) && is_any_left self.old.left) }
        ensures counted { self.new.count ≡ after_draw self.old }
    {
        if self.count.next_fails() {
            return Err(DrawFailed);
        }
        match self.secrets.as_slice().get(self.drawn) {
            Some(secret) => {
                let secret = *secret;
                self.drawn += 1;
                Ok(secret)
            }
            None => {
                self.count.add_fault();
                Err(DrawFailed)
            }
        }
    }
}
