//! A manager of one user, by codes and numbers: each call is answered by a status, whatever it asks.
#![tactic(auto)]

mod answers;
mod faults;
mod level_calls;
mod lists;
mod node_calls;
mod requests;
mod row_calls;
pub mod serving;
mod statuses;

pub use lists::Lists;
pub use requests::{Answer, Request};
pub use serving::{Manager, fresh, serve};
