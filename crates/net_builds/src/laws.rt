//! What is told of functions that were built is true of them, in any legal history of the sessions that built them.

ghost use Rattle.net_builds.specs.Builds.{TellingsAreTrue, UnsiftedTellingsAreTrue};
ghost use Rattle.net_builds.specs.Loads.{LoadsAreTrue};
ghost use Rattle.net_builds.specs.Sifting.{SiftedTellingsAreTrue};

use sift_laws::{sifts_go_by_functions, wholes_are_alike};

/// In a legal history of some sessions that had made no call before: where they built the wanted functions, handed each of them over
/// to the first one, and that one told a report of what it had fetched, or a summary, it is told of the wanted functions themselves,
/// and the listing by which it was told is one of these, under the order that it noted then, which is the one that the entries below
/// that place leave. Where no session swapped levels or sifted, this is the order 0, 1, 2, ..
pub fn tellings_are_true()
    ensures told { TellingsAreTrue }
    ensures unsifted { UnsiftedTellingsAreTrue }
{}

/// In such a history, of a manager without elements: where the first session sifted the variables once, behind what it had fetched and
/// before what it told, it is told of the wanted functions under the order that a sift of these leaves, by the definition (Rudell 1993),
/// of the order 0, 1, 2, ..
pub fn sifted_tellings_are_true()
    ensures { SiftedTellingsAreTrue }
{
    sifts_go_by_functions();
    wholes_are_alike();
}

/// In a legal history of a session that had made no call before, and that made a stored diagram and told its report, without a swap or
/// a sift: the text is the report of the diagram's roots under the order 0, 1, 2, ..
pub fn loads_are_true()
    ensures { LoadsAreTrue }
{}
