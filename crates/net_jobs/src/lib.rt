//! Jobs from bytes to bytes: the sessions that play a job, and the top call.
#![tactic(auto)]

mod answering;
mod diagrams;
mod evaluation;
mod finding;
mod gate;
mod halves;
mod hosting;
mod networks;
mod pace;
mod performing;
mod playing;
mod refusal;
mod registers;
mod said;
mod section;
mod status;
mod stops;
mod texts;
mod top;
mod workers;

pub use blif_net::gen_text;
pub use byte_streams::{Bytes, Discard, Failed, Pieces, Sink, Source, SureBytes};
pub use command_words::Options;
pub use diagrams::load;
pub use gate::{Gate, Open};
pub use hosting::SessionHost;
pub use networks::{build, generate};
pub use playing::play;
pub use said::Said;
pub use status::Status;
pub use stops::PartStop;
pub use top::{
    builds_are_complete, loads_are_complete, made_networks_are_complete, plays_are_complete,
    refuse_memory, run,
};
