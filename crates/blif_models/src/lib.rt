//! Models of the Berkeley Logic Interchange Format: what stands in them, the circuit into which the main one is expanded, and what
//! may be wrong with several of them.
#![tactic(auto)]

ghost use Rattle.blif_models.specs.Agreement.{ExpansionsAgree, OutcomesAgree, ReachedAgrees, TurningsAgree};
ghost use Rattle.blif_models.specs.KeptReached.{KeptAgree};
ghost use Rattle.blif_models.specs.ModelGraphs.{CountsAreTotals};
ghost use Rattle.blif_models.specs.NumberedGraphs.{NumberedAreGraphs};
ghost use Rattle.blif_models.specs.Numberings.{LayoutsAreExpansions};
ghost use Rattle.blif_models.specs.Orderings.{PlacesAreRanks, TotalsAreCounts};
ghost use Rattle.blif_models.specs.Lined.{WholesAreLined};
ghost use Rattle.blif_models.specs.Plain.{PlainIsWhole};
ghost use Rattle.blif_models.specs.Within.{WholesAreWithinLimits};

mod adding;
mod arranging;
mod cycles;
mod expanding;
mod graph;
mod kept;
mod layout;
mod limits;
mod numbered;
mod ranks;
mod reached;
mod totals;
mod tour;

pub use adding::limit_line;
pub use arranging::{Arrangement, arrange_models, holdings_of, number_of};
pub use cycles::{Holding, first_turning};
pub use expanding::{Outcome, expand};
pub use graph::{Own, holds_of, own_in};
pub use kept::keep_reached;
pub use layout::{Whole, lay_out};
pub use limits::{Adding, line_passing};
pub use numbered::{
    Entry, Laid, NumberedCover, NumberedInstance, NumberedJoin, NumberedLatch, NumberedModel, Spot,
};
pub use reached::reached_from;
pub use totals::totals_of;

/// A model without instances is its own whole: no signal of it gets another name.
pub fn plain_models_are_whole()
    ensures { PlainIsWhole }
{}

/// What is counted through levels of models, without laying them out, is what each model has in all: signals, latches and copies.
pub fn counts_are_totals()
    ensures { CountsAreTotals }
{}

/// What is laid out of numbered models is, name by name, what the models expand into.
pub fn layouts_are_expansions()
    ensures { LayoutsAreExpansions }
{}

/// In an order in which each model stands behind those that it holds, its place is a rank, and what it has in all is what is counted
/// through as many levels.
pub fn orders_count()
    ensures ranks { PlacesAreRanks }
    ensures counts { TotalsAreCounts }
{}

/// What numbered models hold and have is what the models by name hold and have, and the places of an order of them are ranks.
pub fn numbered_models_are_graphs()
    ensures { NumberedAreGraphs }
{}

/// The whole of a main model by numbers is, name by name, what the main model expands into; and the line by which the limits are
/// passed is the same by numbers and by names.
pub fn expansions_agree()
    ensures { ExpansionsAgree }
{}

/// What models hold through any number of levels, and by which instances they hold themselves, is the same by numbers and by names.
pub fn reached_agrees()
    ensures { ReachedAgrees }
{}

/// The first line by which a model holds itself is the same by numbers and by names, where lines rise.
pub fn turnings_agree()
    ensures { TurningsAgree }
{}

/// What comes of a main model by numbers is what comes of it by names: each kind of fault at its first line, or what it expands into.
pub fn outcomes_agree()
    ensures { OutcomesAgree }
{}

/// Models of which only those that a main one reaches keep their entries have the same main one by name, which reaches the same ones.
pub fn kept_agree()
    ensures { KeptAgree }
{}

/// Where no line passes the limits, the circuit into which a main model is expanded has no more inputs and signals than a network may
/// have.
pub fn wholes_are_within_limits()
    ensures { WholesAreWithinLimits }
{}

/// Where numbered entries stand on the lines of what they are by name, each cover of a whole has the line of the model's cover.
pub fn wholes_are_lined()
    ensures { WholesAreLined }
{}
