//! What may be wrong with several models, by number: names of models, what instances join to formal names, and signals that are
//! defined twice.
#![tactic(auto)]

ghost use Rattle.blif_formals.specs.Actuals.{JoinsAgree};
ghost use Rattle.blif_formals.specs.ByNames.{ClashesAgree, FormalsAgree};
ghost use Rattle.blif_formals.specs.Calls.{CallsAgree};
ghost use Rattle.blif_formals.specs.Definitions.{DefinitionsAgree};
ghost use Rattle.blif_formals.specs.Instances.{InstancesAgree};
ghost use Rattle.blif_formals.specs.Lines.{LinesAgree};
ghost use Rattle.blif_formals.specs.Reached.{ReachedLinesAgree};
ghost use Rattle.blif_formals.specs.Titles.{TitlesAgree};
ghost use Rattle.blif_formals.specs.Twice.{TwiceLinesAgree};
ghost use Rattle.blif_formals.specs.Words.{NumbersStay};

mod actuals;
mod calls;
mod clashes;
mod definitions;
mod formals;
mod instances;
mod interface;
mod joining;
mod parting;
mod reached;
mod titles;
mod twice;
mod words;

pub use actuals::{actuals_in, joins_in};
pub use calls::{Call, holds_by, nameless_line};
pub use clashes::{Definition, clash_line, lesser};
pub use definitions::add_definitions;
pub use formals::{Callees, formal_line};
pub use instances::instance_by;
pub use interface::{Interface, Port, interface_of};
pub use joining::joins_well;
pub use parting::{is_misjoined, join_of};
pub use reached::first_met;
pub use titles::{Heading, Title, mistitled_line, titles_of};
pub use twice::twice_line;
pub use words::Words;

/// Whether an instance joins the formal names of its model well is the same by numbers and by names.
pub fn formals_agree()
    ensures { FormalsAgree }
{}

/// Which signals of a model are defined twice, and at which lines, is the same by numbers and by names.
pub fn clashes_agree()
    ensures { ClashesAgree }
{}

/// Of what is told at lines of models, the first line in those that a main one reaches is the same by numbers and by names.
pub fn reached_lines_agree()
    ensures { ReachedLinesAgree }
{}

/// Words keep their numbers where one more comes, and no word has two.
pub fn numbers_stay()
    ensures { NumbersStay }
{}

/// Which model has a name, and which further models have none of their own, is the same by numbers and by names.
pub fn titles_agree()
    ensures { TitlesAgree }
{}

/// What stands in a model defines the same signals by numbers and by names.
pub fn definitions_agree()
    ensures { DefinitionsAgree }
{}

/// What models hold, and the first line by which a model is not named as it should be, are the same by numbers and by names.
pub fn calls_agree()
    ensures { CallsAgree }
{}

/// The first line by which a signal is defined twice, in the models that a main one reaches, is the same by numbers and by names.
pub fn twice_lines_agree()
    ensures { TwiceLinesAgree }
{}

/// What instances join is the same by numbers and by names, and words that come later leave it as it is.
pub fn joins_agree()
    ensures { JoinsAgree }
{}

/// Where the lines of models rise, what comes of the main one by numbers is what comes of it by names.
pub fn lines_agree()
    ensures { LinesAgree }
{}

/// An instance by number is the one by name.
pub fn instances_agree()
    ensures { InstancesAgree }
{}
