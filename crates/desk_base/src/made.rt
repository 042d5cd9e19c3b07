//! What replies show.

ghost use Rattle.std.specs.Prelude.{◌≡◌};
ghost use Rattle.desk_base.specs.Made as made;

use host_base::Digest;
use share_graph::Made;

/// What the reply shows of a command that makes no row: nothing.
pub const NOTHING: Made = Made {
    account: None,
    app: None,
    grain: None,
    grant: None,
    handle: None,
    saved: None,
    session: None,
};

/// The digest that a draft has until a secret is drawn.
pub const BLANK: Digest = Digest([0; 32]);

/// What the reply shows of a grant: its number.
pub fn shown_grant(num: u32) -> Made
    ensures { result ≡ made.shown_grant num }
{
    Made {
        grant: Some(num),
        ..NOTHING
    }
}
