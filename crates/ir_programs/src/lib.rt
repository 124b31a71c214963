//! Which program the tree of a module stands for, and where a tree has none. The definitions stand in `specs/`.
#![tactic(auto)]

mod absences;
mod integers;
mod locals;
mod numbers;
mod parts;
mod refusals;
mod registers;
mod repeats;

pub use absences::{absences_told, is_known, labels_told};
pub use integers::fits_width;
pub use locals::{Local, copied, copied_or_none, locals_of, register_type, result_type};
pub use numbers::{is_same, noted, numbers_told};
pub use parts::{function_callees, function_labels, labels_of};
pub use refusals::{Cause, Refusal, answers_are_one, earlier};
pub use registers::{register_names, register_types};
pub use repeats::repeats_told;
