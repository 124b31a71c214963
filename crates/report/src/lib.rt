//! The report of a program: it is explored with no call skipped, and its leaves are told.
#![tactic(auto)]

mod reporting;

pub use reporting::report_text;
