//! What the program puts and how it ends: its texts, line by line, and its statuses.
#![tactic(auto)]

mod ending;
mod fault;
mod item_fault;
mod outcome;
mod reasons;
mod refusal;
mod reply;
mod report;
mod status;
mod usage;

pub use ending::Ending;
pub use fault::Fault;
pub use item_fault::{ItemFault, refuse_fault};
pub use outcome::{Finding, Outcome, false_count};
pub use refusal::{Refusal, refuse};
pub use reply::{Reply, Saving};
pub use report::{push_lasso, report_text};
pub use status::Status;
pub use usage::usage_text;
