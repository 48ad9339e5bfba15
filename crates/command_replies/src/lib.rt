//! The replies of the commands beside `check`: to proof files, to trace files, and to what is asked of delays and of strong
//! fairness.
#![tactic(auto)]

mod answers;
mod certificate;
mod certificate_lines;
mod delay;
mod delay_replies;
mod numbers;
mod proof_replies;
mod proof_report;
mod reasons;
mod strong_replies;
mod trace_replies;

pub use answers::{Answer, Answers};
pub use certificate::{NodeCertificate, NodeRow};
pub use delay::Delay;
pub use delay_replies::{delayed, unknown_delays};
pub use proof_replies::{rechecked, refuse_proofs, unanswered_model};
pub use strong_replies::{tell_none, tell_path, unknown_strong};
pub use trace_replies::{refuse_trace, replayed, unanswered_trace};
