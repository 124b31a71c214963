//! Tests of what programs are made of: lists, names of frames and objects, values, and the functions of the prelude.
#![tactic(auto)]

#[cfg(test)]
mod of_lists;
#[cfg(test)]
mod of_names;
#[cfg(test)]
mod of_prelude;
