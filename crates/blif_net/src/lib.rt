//! Networks of the Berkeley Logic Interchange Format, and the texts that they are read from.
#![tactic(auto)]

mod adders;
mod covers;
mod ending;
mod faults;
mod laws;
mod reader;
mod reading;
mod sharing;

pub use adders::gen_text;
pub use cover_nets::{Cover, Cube, Literal, Net, Output};
pub use faults::{BlifError, BlifFault, FaultKind};
pub use laws::{
    cyclic_covers_are_found, dumps_are_read_again, networks_are_bounded, networks_have_names,
    plain_texts_agree, texts_have_one_reading,
};
pub use reader::read;
