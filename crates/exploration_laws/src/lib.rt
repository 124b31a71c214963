//! What every exploration keeps, with skipped calls, in recoveries and through merges: proofs of laws alone, over the definitions
//! of crate `sym_states`.
#![tactic(auto)]

mod laws;

pub use laws::{
    calls_are_kept, conditions_begin_with_the_givers, cut_logs_stand_for_the_history_before,
    explorations_exist, leaves_have_inputs, needed_calls_are_open, needs_name_skipped_calls,
    pending_results_name_earlier_calls, steps_left_fall,
};
