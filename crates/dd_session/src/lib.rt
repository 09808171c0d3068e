//! Sessions that share one store of decision diagrams and a board, and take turns.
#![tactic(auto)]

mod alone;
mod answers;
mod asking;
mod bdd_calls;
mod book;
mod closing;
mod drawing;
mod family_calls;
mod fetching;
mod held;
mod listing;
mod making;
mod manager;
mod nodeless;
mod number_calls;
mod own_rows;
mod questions;
mod reordering;
mod request;
mod seated;
mod session;
mod settling;
mod sifting;
mod starting;
mod walking;

pub use answers::{Again, Apart, Fetched, Full, Placed, Refusal};
pub use group_sift::{Blocks, Mode, Sifted};
pub use handle_count::H;
pub use manager::{Closed, Config, Manager, OpenFault};
pub use operator_calls::{Overflow, Unmade};
pub use session::Session;
