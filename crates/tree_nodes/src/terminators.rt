//! The nodes of terminators.
ghost use Rattle.std.specs.Prelude.{ℕ, ◌≡◌, ◌+◌, ◌++◌, ◌∷◌, [], IfOk, IsTrue, List, length, map};
ghost use Rattle.std.specs.List.{list_all};
ghost use Rattle.ir_tree.specs.declared.instructions.TerminatorForm.TheVariants as terminators;
ghost use Rattle.ir_programs.specs.Causes.{bits_of as bits_in};
ghost use Rattle.ir_programs.specs.Flow.{block_edges, led_to as leads_to};
ghost use Rattle.ir_programs.specs.Nodes as spec;
ghost use Rattle.ir_programs.specs.Parts.{case_label};
ghost use Rattle.ir_programs.specs.Readable.{is_readable_terminator, is_readable_value, is_width};
ghost use Rattle.tree_nodes.specs.Edges.{edges_to};

use crate::calls::typed_operand;
use crate::flow::{behind, led_to};
use crate::operands::operand_of;
use crate::scope::Scope;
use bitnum::Num;
use flat_ir::{Node, RegType, SwitchCase};
use ir_tree::constants::Value;
use ir_tree::instructions::{Block, Case, TerminatorForm};
use ir_tree::module::FunctionDefinition;
use ir_tree::types::Name;
use plain_list::Sequence;
use std::alloc::{AllocError, Global};
use tree_constants::bits_of;

/// The number of a case.
fn case_number(case: &Case) -> Num
    requires { IsTrue (is_width case.now.width) }
    ensures { result ≡ record { width = case.now.width; bits = bits_in case.now.width case.now.value } }
{
    Num::new(case.width, bits_of(case.width, &case.value))
}

fn switch_case(
    function: &FunctionDefinition,
    edge: u32,
    case: &Case,
) -> Result<SwitchCase, AllocError>
    requires { IsTrue (is_width case.now.width) }
    ensures { IfOk result (λ made. made ≡ record { number = record { width = case.now.width; bits = bits_in case.now.width case.now.value }; to = leads_to function.now edge case.now.label }) }
{
    let number = case_number(case);
    let to = led_to(function, edge, &case.label)?;
    Ok(SwitchCase { number, to })
}

/// The cases of a switch, the first edge's node having number `k`.
fn switch_cases(
    alloc: Global,
    function: &FunctionDefinition,
    k: u32,
    cases: &[Case],
) -> Result<Sequence<SwitchCase>, AllocError>
    requires { IsTrue (list_all (λ c. is_width c.width) cases.now) }
    ensures { IfOk result (λ made. made ≡ spec.switch_cases function.now k cases.now) }
{
    let mut made = Sequence::new(alloc);
    let mut edge = k;
    for case in cases {
        made.push(switch_case(function, edge, case)?)?;
        edge = behind(function, edge, &case.label)?;
    }
    Ok(made)
}

/// The number behind those of the edges of a switch's cases.
fn behind_cases(function: &FunctionDefinition, k: u32, cases: &[Case]) -> Result<u32, AllocError>
    ensures { IfOk result (λ n. n ≡ spec.behind_cases function.now k cases.now) }
{
    let mut edge = k;
    for case in cases {
        edge = behind(function, edge, &case.label)?;
    }
    Ok(edge)
}

/// The number behind those of the edges of a switch.
fn behind_switch(
    function: &FunctionDefinition,
    k: u32,
    cases: &[Case],
    default: &Name,
) -> Result<u32, AllocError>
    ensures { IfOk result (λ n. (source : List ℕ) → n ≡ k + length (edges_to function.now source (map case_label cases.now ++ default.now ∷ []))) }
{
    behind(function, behind_cases(function, k, cases)?, default)
}

/// The number behind those of a block's edges, the first of which has number `k`.
pub(crate) fn behind_block(
    function: &FunctionDefinition,
    k: u32,
    block: &Block,
) -> Result<u32, AllocError>
    ensures { IfOk result (λ n. n ≡ k + length (block_edges function.now block.now)) }
{
    match &block.terminator.form {
        TerminatorForm::Return(_) | TerminatorForm::Unreachable => Ok(k),
        TerminatorForm::Jump(to) => behind(function, k, to),
        TerminatorForm::Branch {
            if_true,
            if_false,
            ..
        } => behind(function, behind(function, k, if_true)?, if_false),
        TerminatorForm::Switch { default, cases, .. } => {
            behind_switch(function, k, cases.as_slice(), default)
        }
    }
}

fn branch_node(
    scope: &Scope,
    k: u32,
    condition: &Value,
    if_true: &Name,
    if_false: &Name,
) -> Result<Node, AllocError>
    requires { IsTrue (is_readable_value condition.now) }
    ensures { IfOk result (λ node. node ≡ spec.terminator_node scope.now.whole.now.tree.now scope.now.function.now k (terminators.Branch condition.now if_true.now if_false.now)) }
{
    let function = scope.function;
    Ok(Node::Branch {
        condition: operand_of(scope, RegType::Int(1), condition)?,
        yes: led_to(function, k, if_true)?,
        no: led_to(function, behind(function, k, if_true)?, if_false)?,
    })
}

fn switch_node(
    alloc: Global,
    scope: &Scope,
    k: u32,
    width: u8,
    value: &Value,
    default: &Name,
    cases: &Sequence<Case>,
) -> Result<Node, AllocError>
    requires { IsTrue (is_readable_terminator (terminators.Switch width value.now default.now cases.now)) }
    ensures { IfOk result (λ node. node ≡ spec.terminator_node scope.now.whole.now.tree.now scope.now.function.now k (terminators.Switch width value.now default.now cases.now)) }
{
    let function = scope.function;
    let numbers = cases.as_slice();
    Ok(Node::Switch {
        value: operand_of(scope, RegType::Int(width), value)?,
        cases: switch_cases(alloc, function, k, numbers)?,
        default: led_to(function, behind_cases(function, k, numbers)?, default)?,
    })
}

/// The node of a terminator, its first edge's node having number `k`.
pub(crate) fn terminator_node(
    alloc: Global,
    scope: &Scope,
    k: u32,
    form: &TerminatorForm,
) -> Result<Node, AllocError>
    requires { IsTrue (is_readable_terminator form.now) }
    ensures { IfOk result (λ node. node ≡ spec.terminator_node scope.now.whole.now.tree.now scope.now.function.now k form.now) }
{
    match form {
        TerminatorForm::Return(Some(value)) => Ok(Node::Ret {
            value: Some(typed_operand(scope, value)?),
        }),
        TerminatorForm::Return(None) => Ok(Node::Ret { value: None }),
        TerminatorForm::Jump(to) => Ok(Node::Jump {
            next: led_to(scope.function, k, to)?,
        }),
        TerminatorForm::Branch {
            condition,
            if_true,
            if_false,
        } => branch_node(scope, k, condition, if_true, if_false),
        TerminatorForm::Switch {
            width,
            value,
            default,
            cases,
        } => switch_node(alloc, scope, k, *width, value, default, cases),
        TerminatorForm::Unreachable => Ok(Node::Unreachable),
    }
}
