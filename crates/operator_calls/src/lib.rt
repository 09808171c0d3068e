//! What makes a function, as one call over any store: what it takes, what answers it and what it may store, by what makes it; and the same
//! of other things that stand for functions.
#![tactic(auto)]

mod dispatch;
mod renaming;
mod unmade;

pub use add_ops::Overflow;
pub use dispatch::run;
pub use renaming::{Renaming, renamed, renamed_pairs};
pub use unmade::Unmade;
