//! The functions that a module may call without defining them: eight that have a body of nodes, and five that are nodes of
//! their own kind.
#![tactic(auto)]

mod copying;
mod functions;
mod names;
mod primitives;
mod shapes;

pub use functions::prelude_func;
pub use names::find;
pub use primitives::{Primitive, find_primitive};
