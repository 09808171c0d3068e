//! Each dump of a text has what builders of its roots rely on.

ghost use Rattle.dddmp_text.specs.Bounds.{DumpsAreBounded, LinesHaveBytes};

/// In each dump that a text gives, children come before their parents, each variable and each root is there, and there are at most
/// `MOST_VARIABLES` variables. The text has at least five bytes for each node line.
pub fn dumps_are_bounded()
    ensures bounded { DumpsAreBounded }
    ensures bytes { LinesHaveBytes }
{}
