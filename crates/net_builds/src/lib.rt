//! Functions of networks and of stored diagrams, made by a session of a manager, and what is told of them.
#![tactic(auto)]

mod building;
mod diagrams;
mod factors;
mod handing;
mod handovers;
mod host;
mod laws;
mod letting;
mod loading;
mod products;
mod rows;
mod sharing;
mod signals;
mod telling;
mod uses;
mod worker;

pub use building::finish_network;
pub use handing::Handover;
pub use handovers::{handed_names_agree, names_stand_for_one_function};
pub use host::{Host, HostRefusal, Taken, Told};
pub use laws::{loads_are_true, sifted_tellings_are_true, tellings_are_true};
pub use loading::load_report;
pub use sharing::{Share, build_share, no_share};
pub use telling::{Findings, Telling};
pub use worker::Worker;
