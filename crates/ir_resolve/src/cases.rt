//! Cases of switches that stand twice.
ghost use Rattle.std.specs.Prelude.{◌≡◌, [], IfOk, IsTrue};
ghost use Rattle.std.specs.List.{flat_map, list_all};
ghost use Rattle.bitnum.specs.Number.{IsWidth};
ghost use Rattle.ir_programs.specs.declared.refusals.Cause.TheVariants.{DuplicateName};
ghost use Rattle.ir_programs.specs.Causes as spec;
ghost use Rattle.ir_programs.specs.Readable.{is_width, is_readable_terminator, is_readable_block, is_readable_function};
ghost use Rattle.ir_resolve.specs.Telling.{told_of};

use crate::telling::noted_if;
use ir_programs::{Cause, Refusal};
use ir_tree::instructions::{Block, Case, TerminatorForm};
use ir_tree::module::FunctionDefinition;
use tree_constants::bits_of;

fn same_case(a: &Case, b: &Case) -> bool
    requires { IsWidth b.now.width }
    ensures { result ≡ spec.same_case a.now b.now }
{
    if a.width != b.width {
        return false;
    }
    bits_of(b.width, &a.value) == bits_of(b.width, &b.value)
}

fn is_case_of(seen: &[Case], case: &Case) -> bool
    requires { IsWidth case.now.width }
    ensures { result ≡ spec.is_case_of seen.now case.now }
{
    'each: for other in seen {
        if same_case(other, case) {
            return true;
        }
    }
    false
}

fn cases_told(told: Option<Refusal>, cases: &[Case]) -> Option<Refusal>
    requires { IsTrue (list_all (λ c. is_width c.width) cases.now) }
    ensures { result ≡ told_of DuplicateName told (spec.repeated_cases [] cases.now) }
{
    let mut now = told;
    'places: for place in 0..cases.len() {
        let case = &cases[place];
        let fails = is_case_of(&cases[..place], case);
        now = noted_if(now, Cause::DuplicateName, case.at, fails);
    }
    now
}

fn terminator_told(told: Option<Refusal>, form: &TerminatorForm) -> Option<Refusal>
    requires { IsTrue (is_readable_terminator form.now) }
    ensures { result ≡ told_of DuplicateName told (spec.repeated_cases [] (spec.terminator_cases form.now)) }
{
    match form {
        TerminatorForm::Switch { cases, .. } => cases_told(told, cases.as_slice()),
        _ => cases_told(told, &[]),
    }
}

fn blocks_told(told: Option<Refusal>, blocks: &[Block]) -> Option<Refusal>
    requires { IsTrue (list_all is_readable_block blocks.now) }
    ensures { result ≡ told_of DuplicateName told (flat_map (λ b. spec.repeated_cases [] (spec.terminator_cases b.terminator.form)) blocks.now) }
{
    let mut now = told;
    'each: for block in blocks {
        now = terminator_told(now, &block.terminator.form);
    }
    now
}

/// What is told once the switches of functions are looked at: no number of one is to stand twice.
pub fn all_cases_told(told: Option<Refusal>, functions: &[FunctionDefinition]) -> Option<Refusal>
    requires { IsTrue (list_all is_readable_function functions.now) }
    ensures { result ≡ told_of DuplicateName told (flat_map spec.duplicate_cases functions.now) }
{
    let mut now = told;
    'each: for function in functions {
        now = blocks_told(now, function.blocks.as_slice());
    }
    now
}
