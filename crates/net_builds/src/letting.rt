//! Rows that are let go, one after another.

ghost use Rattle.std.specs.Prelude.{map};
ghost use Rattle.net_builds.specs.Holdings.{LetsAllGo, MayLetAllGo, names_in};

use crate::handing::Handover;
use crate::host::Host;
use function_laws::Name;

/// Lets the rows of signals go.
pub fn let_go_rows<H: Host>(host: &H, session: &mut H::Session, rows: &[Option<Name>])
    requires may { MayLetAllGo H.has H.standing host.now session.old (names_in rows.now) }
    ensures own { H.has host.now session.new }
    ensures gone { LetsAllGo (H.standing session.old) (H.standing session.new) (names_in rows.now) }
{
    for row in rows {
        let Some(name) = *row else {
            continue;
        };
        host.let_go(session, name);
    }
}

/// Lets the names go that were fetched.
pub fn let_go_fetched<H: Host>(host: &H, session: &mut H::Session, handovers: &[Handover])
    requires may { MayLetAllGo H.has H.standing host.now session.old (map (λ h. h.to) handovers.now) }
    ensures own { H.has host.now session.new }
    ensures gone { LetsAllGo (H.standing session.old) (H.standing session.new) (map (λ h. h.to) handovers.now) }
{
    for handover in handovers {
        host.let_go(session, handover.to);
    }
}

/// Lets names go.
pub fn let_go_names<H: Host>(host: &H, session: &mut H::Session, names: &[Name])
    requires may { MayLetAllGo H.has H.standing host.now session.old names.now }
    ensures own { H.has host.now session.new }
    ensures gone { LetsAllGo (H.standing session.old) (H.standing session.new) names.now }
{
    for name in names {
        host.let_go(session, *name);
    }
}
