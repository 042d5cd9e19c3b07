//! Whether steps prove what they say.

ghost use Rattle.std.specs.Prelude.{◌≡◌, ◌↔◌, ℕ, IsTrue, Some, slice_get};
ghost use Rattle.share_graph.specs.Coherent.{IsCoherent};
ghost use Rattle.share_graph.specs.Derivation.{Holds};
ghost use Rattle.access_report.specs.declared.step.Step as the_step;
ghost use Rattle.access_report.specs.Steps.{AreSound};

use crate::following::is_lawful;
use crate::step::Step;
use share_graph::Tables;

/// Whether each step is lawful by what earlier ones say, at the places that it names. What such steps say is so: this checks an
/// explanation without its maker, and without a solution.
pub fn sound(tables: &Tables, steps: &[Step]) -> bool
    requires { IsCoherent tables.now }
    ensures exact { IsTrue result ↔ AreSound tables.now steps.now }
    ensures law { IsTrue result → (i : ℕ) (step : the_step.Step) → slice_get steps.now i ≡ Some step
        → Holds tables.now step.node step.fact }
{
    for (place, step) in steps.iter().enumerate() {
        if !is_lawful(tables, steps, place, step) {
            return false;
        }
    }
    true
}
