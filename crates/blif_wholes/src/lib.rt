//! The whole of several models in the Berkeley Logic Interchange Format as a circuit: that no signal of it is defined twice, the first
//! line that uses what is no signal of it, its draft by numbers, and its network.
#![tactic(auto)]

ghost use Rattle.blif_wholes.specs.Defined.{WholesDefineOnce};
ghost use Rattle.blif_wholes.specs.LineOrder.{CyclesByLine};
ghost use Rattle.blif_wholes.specs.NamedCircuits.{CircuitsAreNamed};
ghost use Rattle.blif_wholes.specs.Uses.{UndefinedAgrees};

mod bodies;
mod building;
mod drafting;
mod names;
mod parting;
mod reads;
mod roles;
mod uses;

pub use bodies::CoverRows;
pub use building::{Built, network_of};
pub use drafting::{WholeDraft, whole_draft};
pub use names::WholeNames;
pub use parting::{WholeCover, WholeParts, parts_by_line};
pub use roles::{Role, roles_of};
pub use uses::{SpotUse, undefined_line};

/// Where models join well and define no signal twice, the circuit into which the main one is expanded defines none twice either.
pub fn wholes_define_once()
    ensures { WholesDefineOnce }
{}

/// The first line that uses what is no signal of a whole is the same by spots and by names.
pub fn undefined_agrees()
    ensures { UndefinedAgrees }
{}

/// The first line of covers that are cyclic is that of the first one of them in the order of lines.
pub fn cycles_by_line()
    ensures { CyclesByLine }
{}

/// By spots, with covers in the order of lines, a whole is the circuit into which the main model is expanded, but for the order of covers.
pub fn circuits_are_named()
    ensures { CircuitsAreNamed }
{}
