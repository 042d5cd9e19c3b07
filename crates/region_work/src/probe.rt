ghost use Rattle.std.specs.Prelude.{◌≡◌, ◌↔◌, ◌+◌, ℕ, IfSome};
ghost use Rattle.std.specs.Option.{option_copied};
ghost use Rattle.share_graph.specs.declared.facts.Fact.{Fact};
ghost use Rattle.share_graph.specs.declared.grants.Grant as the_grant;
ghost use Rattle.share_graph.specs.declared.rows.App as the_app;
ghost use Rattle.share_graph.specs.declared.state.Tables.{Tables};
ghost use Rattle.share_graph.specs.Coherent.{IsCoherent};
ghost use Rattle.share_graph.specs.Derivation.{Follows};
ghost use Rattle.share_graph.specs.Fitting.{IsAssignmentFor};
ghost use Rattle.share_graph.specs.Nodes.{node_of, source_of};
ghost use Rattle.share_graph.specs.Rows.{row, IsAppOf, IsGrant};
ghost use Rattle.least_access.specs.Held.{IsIn};
ghost use Rattle.least_access.specs.Solved.{HeldAt};
ghost use Rattle.region_work.specs.Starting.{HoldsAsOwner, IsMostOf};

use host_base::{AccountId, AppId, GrainId, GrantId};
use least_access::Held;
use least_access::table::Table;
use share_graph::{App, Grant, Need, Node};

/// The one way to read tables while a region is solved. It counts its evaluations.
pub trait Probe {
    ghost tables: { Self → Tables };

    ghost count: { Self → ℕ };

    /// Where a grant's facts are held.
    fn node(&self, num: GrantId) -> Node
        requires { (grant : the_grant.Grant) × IsGrant (tables self.now) num grant }
        ensures { (grant : the_grant.Grant) → IsGrant (tables self.now) num grant → result ≡ node_of num grant };

    /// What a grant was given from.
    fn source(&self, num: GrantId) -> Option<Node>
        requires { (grant : the_grant.Grant) × IsGrant (tables self.now) num grant }
        ensures { (grant : the_grant.Grant) → IsGrant (tables self.now) num grant → result ≡ source_of grant };

    /// The needs of a grant.
    fn needs(&self, num: GrantId) -> &[Need]
        requires { (grant : the_grant.Grant) × IsGrant (tables self.now) num grant }
        ensures { (grant : the_grant.Grant) → IsGrant (tables self.now) num grant → result.now ≡ grant.needs };

    /// The application of a number, if it is there.
    fn app(&self, num: AppId) -> Option<&App>
        ensures { option_copied result ≡ row (tables self.now).apps num.0 };

    /// What an account holds as the owner of a grain.
    fn own(&self, num: GrainId, account: AccountId) -> Held
        requires { IsCoherent (tables self.now) }
        ensures { (fact : Fact) → IsIn result fact ↔ HoldsAsOwner (tables self.now) num account fact };

    /// What a grant passes on by what a table has now. This is an evaluation.
    fn pass(&mut self, num: GrantId, table: &Table) -> Held
        requires coherent { IsCoherent (tables self.old) }
        requires row { (grant : the_grant.Grant) × IsGrant (tables self.old) num grant }
        ensures answer { (grant : the_grant.Grant) (fact : Fact) → IsGrant (tables self.old) num grant
            → IsIn result fact ↔ Follows (tables self.old) (HeldAt table.now.entries) num grant (node_of num grant) fact }
        ensures same { tables self.new ≡ tables self.old }
        ensures counted { count self.new ≡ count self.old + 1 };

    /// The most that a grant which isn't among the tables' yet may add at its node, by what a table has now: of what its source holds,
    /// what it gives. This is an evaluation too.
    fn offer(&mut self, grant: &Grant, table: &Table) -> Option<Held>
        requires coherent { IsCoherent (tables self.old) }
        requires fits { (app : the_app.App) → IsAppOf (tables self.old) grant.now.grain app
            → IsAssignmentFor app.manifest grant.now.assignment }
        ensures answer { IfSome result (IsMostOf (tables self.old) table.now.entries grant.now) }
        ensures same { tables self.new ≡ tables self.old }
        ensures counted { count self.new ≡ count self.old + 1 };
}
