//! What every attempt of a state keeps: proofs of laws alone, over the definitions of crate `sym_states`.
#![tactic(auto)]

mod laws;

pub use laws::{
    attempts_keep_fitting, attempts_need_nothing, evaluating_has_one_result,
    exploring_has_one_result,
};
