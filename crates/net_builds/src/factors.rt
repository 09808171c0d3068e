//! Factors of products, and terms of sums: rows that are there already, and rows that were made on the way.

ghost use Rattle.std.specs.Prelude.{◌≡◌};
ghost use Rattle.net_builds.specs.Asked.{MayMakeRows};
ghost use Rattle.net_builds.specs.Factors.{IsLet, IsLiveFactor, name_of};

use crate::host::Host;
use function_laws::Name;

/// A row that others have use for, or one that was made on the way and is let go when it was used.
#[derive(Clone, Copy, Drop)]
pub enum Factor {
    Given(Name),
    Made(Name),
}

impl Factor {
    /// The row.
    pub fn name(&self) -> Name
        ensures { result ≡ name_of self.now }
    {
        match *self {
            Factor::Given(name) => name,
            Factor::Made(name) => name,
        }
    }
}

/// Lets the row go where it was made on the way.
pub fn let_go_made<H: Host>(host: &H, session: &mut H::Session, factor: Factor)
    requires may { MayMakeRows H.has H.standing host.now session.old 1 }
    requires live { IsLiveFactor (H.standing session.old) factor }
    ensures own { H.has host.now session.new }
    ensures let_go { IsLet (H.standing session.old) (H.standing session.new) factor }
{
    if let Factor::Made(name) = factor {
        host.let_go(session, name);
    }
}
