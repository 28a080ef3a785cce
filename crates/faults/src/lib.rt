//! Every refusal of the library, with the number that callers know it by.
#![tactic(auto)]

mod fault;
mod making;

pub use fault::Fault;
pub use making::MakingFault;
