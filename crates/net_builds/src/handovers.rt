//! What is handed over by a cell of the board, in any legal history.

ghost use Rattle.net_builds.specs.Handed.{HandedNamesAgree, NamesStandOnce};

/// In a legal history in which no variable and no element is added, a name that stands for a function at some place stands for it at
/// the end, if it stands for anything then.
pub fn names_stand_for_one_function()
    ensures { NamesStandOnce }
{}

/// In such a history, where a session posted a name to a cell, and a later fetch found that cell posted, with no other post to it
/// between the two: at the end the name that was posted and the name that was fetched stand for one function, if they stand for any.
pub fn handed_names_agree()
    ensures { HandedNamesAgree }
{}
