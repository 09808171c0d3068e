//! What holds of all texts.

ghost use Rattle.blif_net.specs.Bounds.{NetworksAreBounded};
ghost use Rattle.blif_net.specs.Cycles.{CyclesAreFound};
ghost use Rattle.blif_net.specs.Dumped.{DumpsAreRead, NetworksHaveNames};
ghost use Rattle.blif_net.specs.PlainTexts.{PlainTextsAgree};
ghost use Rattle.blif_net.specs.Readings.{EachHasOne, NetOrFault, OneFault, OneNet};

/// Each text, of any length, is that of a network or has one fault, and not both; and the networks of one text give each output
/// the same values.
pub fn texts_have_one_reading()
    ensures one_fault { OneFault }
    ensures net_or_fault { NetOrFault }
    ensures one_net { OneNet }
    ensures each_has_one { EachHasOne }
{}

/// Where no signal is defined twice and what is read is a signal, a cover is not led back to inputs, and so is told, exactly where it lies
/// on a cycle or depends on one.
pub fn cyclic_covers_are_found()
    ensures { CyclesAreFound }
{}

/// Each network of a text has one output at least and no more inputs, signals and outputs than a text may declare; its gates read
/// inputs and gates before them, and each output is a signal of it.
pub fn networks_are_bounded()
    ensures { NetworksAreBounded }
{}

/// A text of one model without latches and instances that has no fault by the definitions for one model has none by those for several,
/// and its circuit is the same by both.
pub fn plain_texts_agree()
    ensures { PlainTextsAgree }
{}

/// A stored diagram's text of multiplexers, as `blif_dump::write` writes it, has no fault, and each network of it has the inputs and
/// outputs, under the names that are written, and gives each output its root's function: where the names are names, no two inputs have
/// one, outputs of one name have one root, and one that is an input is its variable.
pub fn dumps_are_read_again()
    ensures { DumpsAreRead }
{}

/// The names of each network of a text are such names for a listing of its outputs' functions.
pub fn networks_have_names()
    ensures { NetworksHaveNames }
{}
