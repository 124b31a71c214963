//! The values that nodes make of their operands: terms, tests and sides, and bytes that are stored and loaded.
#![tactic(auto)]

mod comparing;
mod making;
mod numbers;
mod operands;
mod pieces;
mod testing;
mod turns;

pub use comparing::{
    alike_pointers, compared, compared_pointers, compared_terms, compared_values, is_equal,
};
pub use making::{
    behind, calculated, cast_to, chosen, in_64_bits, input_at, low_byte, moved_by_index, size_in,
    status_of, truth_of,
};
pub use numbers::{null, pointer_to, wide};
pub use operands::{
    address_in, number_in, pointer_in, put_pending, raw_in, resolved, term_in, value_in,
    with_result,
};
pub use pieces::{
    byte_resolved, bytes_of_type, bytes_of_value, bytes_resolved, is_of_bytes, joined_as, part_of,
    stored_bytes,
};
pub use testing::{has_quotient, is_least, is_nonzero, is_ones, is_small, is_start, is_within};
pub use turns::{branch_sides, case_sides, none_of, switch_sides};
