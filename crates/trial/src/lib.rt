//! The epochs of a trial: their keys, their own signers, and signatures by the trial tag. Every provider of a trial rests on them.
#![tactic(auto)]

mod epoch_list;
mod epoch_set;
mod fault;
mod key_faults;
mod list_faults;
mod lists;

pub use epoch_list::EpochList;
pub use epoch_set::EpochSet;
pub use fault::{Fault, ListFault};
pub use list_faults::check;
