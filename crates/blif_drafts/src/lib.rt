//! Several models while their lines are read: what stands in each, by number, and what is wrong with them, or what the main one expands
//! into.
#![tactic(auto)]

ghost use Rattle.blif_drafts.specs.Lasting.{DraftsLast, LinesGoOn};
ghost use Rattle.blif_drafts.specs.WholeNames.{WholeNamesApart};

mod drafts;
mod entries;
mod latches;
mod open_draft;
mod open_models;
mod parts;
mod signals;
mod stops;
mod verdicts;
mod whole_names;

pub use drafts::{Draft, DraftItem};
pub use entries::models_in;
pub use latches::latch_in;
pub use open_draft::{OpenDraft, heading_of};
pub use open_models::OpenModels;
pub use parts::{Parts, parts_of};
pub use stops::{LineStop, Refusal};
pub use verdicts::{Judged, Verdict, judge};
pub use whole_names::whole_name;

/// The lines of models rise where each line that is added stands below those before it.
pub fn lines_go_on()
    ensures { LinesGoOn }
{}

/// Drafts are of the same models where more names of models have numbers, where a cover has other rows, and where one more stands behind
/// them.
pub fn drafts_last()
    ensures { DraftsLast }
{}

/// Where names of models have no `#`, different signals have different names in the whole.
pub fn whole_names_are_apart()
    ensures { WholeNamesApart }
{}
