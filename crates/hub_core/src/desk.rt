ghost use Rattle.std.specs.Prelude.{◌≡◌, ℕ, length, IfOk, Result};
ghost use Rattle.host_base.specs.declared.bytes.Memory.{Memory};
ghost use Rattle.host_base.specs.declared.key.Key.{Key};
ghost use Rattle.host_base.specs.declared.verdict.Verdict.{Verdict};
ghost use Rattle.hub_core.specs.Book.{Book, GoesOn, TakesNone, Judged, Ordered, Ticked};
ghost use Rattle.site_caps.specs.Answering.{GivesText};

use desk_orders::{Order, OrderFault, Reply};
use host_base::{Key, Memory, Verdict};
use site_caps::{SiteFault, SiteText};
use std::alloc::Global;

/// What judges keys and answers orders. Others may add entries to its history at any call. Up to the place of each answer the clock
/// never went back.
pub trait Desk {
    ghost book: { Self → Book };

    // That the desk before was asked for the verdict on a key, gave this answer, and was then the desk after. Code over any desk can
    // show it by a call of `verdict` alone: where a clause wants it of two messages, there are two calls.
    ghost gave: { Self → Key → Result (ℕ × Verdict) Memory → Self → Type 0 };

    /// How many entries of the history were seen.
    fn place(&self) -> u64
        ensures { result ≡ length (book self.now).seen };

    /// The verdict on a key, and its place in the history. No command is accepted by it.
    fn verdict(&mut self, alloc: Global, key: &Key) -> Result<(u64, Verdict), Memory>
        ensures gave { gave self.old key.now result self.new }
        ensures none { TakesNone (book self.old) (book self.new) }
        ensures judged { IfOk result (λ r.
            Judged (length (book self.old).seen) (book self.new) key.now r.0 r.1) }
        ensures onward { IfOk result (λ r. GoesOn (book self.new) r.0) };

    /// Answers an order, at a place of the history: where it changes something, its event is the entry at that place.
    fn order(&mut self, alloc: Global, order: Order) -> (u64, Result<Reply, OrderFault>)
        ensures ordered { Ordered (book self.old) (book self.new) order result.0 result.1 }
        ensures onward { GoesOn (book self.new) result.0 };

    /// Lets the clock go on to a moment, at a place of the history: where some grant ends by it, the tick is the entry at that place.
    /// It is never refused; neither the keeper nor the spawner is called, and no secret is drawn.
    fn tick(&mut self, alloc: Global, moment: u64) -> (u64, Result<bool, Memory>)
        ensures ticked { Ticked (book self.old) (book self.new) moment result.0 result.1 }
        ensures onward { GoesOn (book self.new) result.0 };

    /// What the site of a tag gives for an item, by the law of the sites. No command is accepted by it.
    fn site(&mut self, alloc: Global, tag: u64, item: u32) -> Result<SiteText, SiteFault>
        ensures none { TakesNone (book self.old) (book self.new) }
        ensures gives { GivesText (book self.old).law tag item result };
}
