//! What phis are set to on edges.
ghost use Rattle.std.specs.Prelude.{◌≡◌, ◌++◌, ◌∷◌, [], map, IfOk};
ghost use Rattle.std.specs.List.{list_all, flat_map};
ghost use Rattle.ir_programs.specs.Fits as spec;
ghost use Rattle.ir_programs.specs.Flow.{value_from as value_in, block_edges};
ghost use Rattle.ir_programs.specs.Parts as parts;
ghost use Rattle.tree_fits.specs.Leads.{led_fits};

use crate::values::{Place, value_fits};
use ir_programs::register_type;
use ir_tree::instructions::{Block, Case, Phi, TerminatorForm};
use ir_tree::types::Name;
use std::alloc::AllocError;
use tree_nodes::{label_of, phis_of, value_from};

fn set_fits(place: &Place, source: &[u8], phi: &Phi) -> bool
    ensures { result ≡ spec.set_fits place.now.tree.now place.now.function.now phi.now (value_in source.now phi.now.incoming) }
{
    match value_from(source, phi.incoming.as_slice()) {
        Some(value) => value_fits(place, register_type(&phi.kind), value),
        None => true,
    }
}

fn sets_fit(place: &Place, source: &[u8], phis: &[Phi]) -> bool
    ensures { result ≡ list_all (λ p. spec.set_fits place.now.tree.now place.now.function.now p (value_in source.now p.incoming)) phis.now }
{
    'each: for phi in phis {
        if !set_fits(place, source, phi) {
            return false;
        }
    }
    true
}

fn push_edge(
    tests: &mut Vec<bool>,
    place: &Place,
    source: &[u8],
    to: &Name,
) -> Result<(), AllocError>
    ensures { IfOk result (λ u. tests.new.items ≡ tests.old.items ++ led_fits place.now.tree.now place.now.function.now source.now to.now) }
{
    match phis_of(place.function, to.text.as_slice()) {
        [] => Ok(()),
        phis => {
            tests.push(sets_fit(place, source, phis))?;
            Ok(())
        }
    }
}

fn push_cases(
    tests: &mut Vec<bool>,
    place: &Place,
    source: &[u8],
    cases: &[Case],
) -> Result<(), AllocError>
    ensures { IfOk result (λ u. tests.new.items ≡ tests.old.items ++ flat_map (led_fits place.now.tree.now place.now.function.now source.now) (map parts.case_label cases.now)) }
{
    'each: for case in cases {
        push_edge(tests, place, source, &case.label)?;
    }
    Ok(())
}

fn push_switch(
    tests: &mut Vec<bool>,
    place: &Place,
    source: &[u8],
    cases: &[Case],
    default: &Name,
) -> Result<(), AllocError>
    ensures { IfOk result (λ u. tests.new.items ≡ tests.old.items ++ flat_map (led_fits place.now.tree.now place.now.function.now source.now) (map parts.case_label cases.now ++ default.now ∷ [])) }
{
    push_cases(tests, place, source, cases)?;
    push_edge(tests, place, source, default)
}

fn push_branch(
    tests: &mut Vec<bool>,
    place: &Place,
    source: &[u8],
    if_true: &Name,
    if_false: &Name,
) -> Result<(), AllocError>
    ensures { IfOk result (λ u. tests.new.items ≡ tests.old.items ++ flat_map (led_fits place.now.tree.now place.now.function.now source.now) (if_true.now ∷ if_false.now ∷ [])) }
{
    push_edge(tests, place, source, if_true)?;
    push_edge(tests, place, source, if_false)
}

fn push_jump(
    tests: &mut Vec<bool>,
    place: &Place,
    source: &[u8],
    to: &Name,
) -> Result<(), AllocError>
    ensures { IfOk result (λ u. tests.new.items ≡ tests.old.items ++ flat_map (led_fits place.now.tree.now place.now.function.now source.now) (to.now ∷ [])) }
{
    push_edge(tests, place, source, to)
}

fn push_terminator(
    tests: &mut Vec<bool>,
    place: &Place,
    source: &[u8],
    form: &TerminatorForm,
) -> Result<(), AllocError>
    ensures { IfOk result (λ u. tests.new.items ≡ tests.old.items ++ flat_map (led_fits place.now.tree.now place.now.function.now source.now) (parts.targets form.now)) }
{
    match form {
        TerminatorForm::Return(_) | TerminatorForm::Unreachable => Ok(()),
        TerminatorForm::Jump(to) => push_jump(tests, place, source, to),
        TerminatorForm::Branch {
            if_true,
            if_false,
            ..
        } => push_branch(tests, place, source, if_true, if_false),
        TerminatorForm::Switch { default, cases, .. } => {
            push_switch(tests, place, source, cases.as_slice(), default)
        }
    }
}

/// Puts for each edge of a block into a block with phis whether their values fit on it.
fn push_block_edges(tests: &mut Vec<bool>, place: &Place, block: &Block) -> Result<(), AllocError>
    ensures { IfOk result (λ u. tests.new.items ≡ tests.old.items ++ map (spec.edge_fits place.now.tree.now place.now.function.now) (block_edges place.now.function.now block.now)) }
{
    push_terminator(tests, place, label_of(block), &block.terminator.form)
}

/// Puts for each edge of blocks into a block with phis whether their values fit on it.
pub fn push_edges(tests: &mut Vec<bool>, place: &Place, blocks: &[Block]) -> Result<(), AllocError>
    ensures { IfOk result (λ u. tests.new.items ≡ tests.old.items ++ map (spec.edge_fits place.now.tree.now place.now.function.now) (flat_map (block_edges place.now.function.now) blocks.now)) }
{
    'each: for block in blocks {
        push_block_edges(tests, place, block)?;
    }
    Ok(())
}
