//! The registers of a session, by number of assignment.

ghost use Rattle.std.specs.Prelude.{◌≡◌, ◌<◌, length, map, All, IfOk};
ghost use Rattle.edge_bits.specs.declared.edges.Kind.{Kind};
ghost use Rattle.edge_bits.specs.declared.edges.Kind.TheVariants as kinds;
ghost use Rattle.operator_calls.specs.Taking.{with_given};
ghost use Rattle.net_jobs.specs.Saying.{IsHeldAs, name_at};

use dd_session::Session;
use edge_bits::{List, Memory};
use function_laws::Name;
use operator_calls::Renaming;
use std::alloc::Global;

/// The name of a register, and the place of the command that assigned it.
#[derive(Clone, Copy, Drop)]
pub struct Assigned {
    pub name: Name,
    pub command: u32,
}

/// The name of the register that was assigned as this number.
pub fn at(names: &[Assigned], a: u32) -> Name
    requires { a < length names.now }
    ensures { result ≡ name_at names.now a }
{
    names[a as usize].name
}

/// The pairs' variables with the names of their registers.
fn with_names(
    alloc: Global,
    names: &[Assigned],
    pairs: &[(u32, u32)],
) -> Result<Vec<(u32, Name)>, Memory>
    requires { All (λ pair. pair.1 < length names.now) pairs.now }
    ensures { IfOk result (λ named. named.items ≡ map (with_given (name_at names.now)) pairs.now) }
{
    let mut named = Vec::new(alloc);
    for pair in pairs {
        named.push((pair.0, at(names, pair.1)))?;
    }
    Ok(named)
}

/// The registers of a session, which stand for what their names do.
#[derive(Drop)]
pub struct Registers<'a> {
    pub names: &'a [Assigned],
    pub session: &'a Session,
}

impl Renaming<u32, Name, List<u32>, List<(u32, u32)>> for Registers<'_> {
    ghost is = { λ r k a. IsHeldAs k r.session.now r.names.now a };

    ghost most = { λ r. r.session.now.manager.vars };

    ghost vars = { λ r. r.session.now.manager.vars };

    ghost elements = { λ r. r.session.now.manager.elements };

    ghost gives = { λ r a. name_at r.names.now a };

    ghost listed = { λ vars. vars };

    ghost paired = { λ pairs. pairs };

    fn give(&self, one: &u32) -> Name
        requires { (k : Kind) × IsHeldAs k self.now.session.now self.now.names.now one.now }
        ensures { result ≡ name_at self.now.names.now one.now }
    {
        at(self.names, *one)
    }

    fn give_pairs(
        &self,
        alloc: Global,
        pairs: &List<(u32, u32)>,
    ) -> Result<Vec<(u32, Name)>, Memory>
        requires { All (λ pair. IsHeldAs kinds.Bdd self.now.session.now self.now.names.now pair.1) pairs.now }
        ensures { IfOk result (λ given. given.items ≡ map (with_given (name_at self.now.names.now)) pairs.now) }
    {
        with_names(alloc, self.names, pairs.as_slice())
    }

    fn lend<'a>(&self, list: &'a List<u32>) -> &'a [u32]
        ensures { result.now ≡ list.now }
    {
        list.as_slice()
    }
}
