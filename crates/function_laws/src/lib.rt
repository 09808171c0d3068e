//! The definitions that everything stands on, and plain calls over whole lists of values for tests.
#![tactic(auto)]

mod history;
mod making;
mod orders;
mod places;
mod plain;
mod plain_numbers;
mod plain_sets;
mod restricting;

pub use history::{Call, Entry, Function, Name, Reply, Sifting};
pub use making::{AddMaking, BddMaking, ExactMaking, Making, ZddMaking};
pub use orders::{Mode, Order};
pub use plain::{compose_of, exists_of, forall_of, ite_of};
pub use plain_numbers::{plus_of, sum_of};
pub use plain_sets::{diff_of, flip_of, meet_of, off_of, on_of, product_of, quotient_of, union_of};
pub use restricting::restrict_holds;
