//! A store in one holder's hands, and the rows that hold its functions under names.
#![tactic(auto)]

mod levels;
mod making;
mod nodes;
mod questions;
mod reordering;
mod row_store;

pub use dead_sweep::Swept;
pub use group_sift::{Blocks, Sifted};
pub use handle_count::H;
pub use node_slots::Stop;
pub use node_store::Order;
pub use nodes::Top;
pub use operator_calls::Unmade;
pub use row_store::RowStore;
pub use store_upkeep::Crowded;
