//! The first register that is read where nothing may have set it.
ghost use Rattle.std.specs.Prelude.{◌≡◌, ◌↔◌, ◌<◌, length, map, IfOk, IsTrue, MatchOption};
ghost use Rattle.flat_ir.specs.Whole.{results_of};
ghost use Rattle.flow.specs.Answers.{NamesFirst};
ghost use Rattle.flow.specs.Flow.{AreDefined, IsFirst};
ghost use Rattle.flow.specs.Named.{IsNamed};
ghost use Rattle.flow.specs.NamedLaws.{FuncsAreNamed};
ghost use Rattle.flow.specs.Paths.{row_of, IsLost, NoneOf, FirstOf, NoneAt, FirstAt, node_of};

use crate::Undefined;
use crate::operands::registers_read;
use crate::tables::{results_of_each, rows};
use crate::unset::unset;
use flat_ir::{Func, NodeId, RegId};
use plain_list::Sequence;
use std::alloc::{AllocError, Global};

/// A function, with what each of its nodes leads to and sets.
#[derive(Drop)]
struct Lists<'a> {
    func: &'a Func,
    rows: Sequence<Sequence<u32>>,
    results: Sequence<Sequence<RegId>>,
    ghost named: { IsNamed func.now },
    ghost rows_are: { rows ≡ map row_of func.now.nodes },
    ghost results_are: { results ≡ map results_of func.now.nodes },
}

impl<'a> Lists<'a> {
    fn new(alloc: Global, func: &'a Func) -> Result<Lists<'a>, AllocError>
        requires { IsNamed func.now }
        ensures { IfOk result (λ lists. lists.func.now ≡ func.now) }
    {
        let nodes = func.nodes.as_slice();
        Ok(Lists {
            func,
            rows: rows(alloc, nodes)?,
            results: results_of_each(alloc, nodes)?,
        })
    }

    /// Whether some path comes to the node with the register, no parameter, not yet set.
    fn is_lost(&self, alloc: Global, node: usize, register: RegId) -> Result<bool, AllocError>
        requires { node < length self.now.func.now.nodes }
        ensures { IfOk result (λ lost. IsTrue lost ↔ IsLost self.now.func.now node register) }
    {
        if register.0 < self.func.params {
            return Ok(false);
        }
        let unset = unset(alloc, &self.rows, &self.results, register)?;
        Ok(unset[node])
    }

    /// The first of the registers that is lost at the node.
    fn first_lost(
        &self,
        alloc: Global,
        node: usize,
        registers: &[RegId],
    ) -> Result<Option<RegId>, AllocError>
        requires { node < length self.now.func.now.nodes }
        ensures { IfOk result (λ found. MatchOption found (NoneOf (IsLost self.now.func.now node) registers.now) (FirstOf (IsLost self.now.func.now node) registers.now)) }
    {
        for register in registers {
            if self.is_lost(alloc, node, *register)? {
                return Ok(Some(*register));
            }
        }
        Ok(None)
    }

    /// The first register that the node reads though it may not be set.
    fn first_at(&self, alloc: Global, node: usize) -> Result<Option<RegId>, AllocError>
        requires { node < length self.now.func.now.nodes }
        ensures { IfOk result (λ found. MatchOption found (NoneAt self.now.func.now (node_of node)) (FirstAt self.now.func.now (node_of node))) }
    {
        let registers = registers_read(alloc, &self.func.nodes.as_slice()[node])?;
        self.first_lost(alloc, node, registers.as_slice())
    }
}

/// The first place, node by node.
fn find(alloc: Global, func: &Func) -> Result<Option<Undefined>, AllocError>
    requires { IsNamed func.now }
    ensures { IfOk result (λ found. MatchOption found (AreDefined func.now) (λ at. IsFirst func.now at.node at.register)) }
{
    let lists = Lists::new(alloc, func)?;
    for node in 0..func.nodes.len() {
        match lists.first_at(alloc, node)? {
            Some(register) => {
                let node = NodeId(node as u32);
                return Ok(Some(Undefined { node, register }));
            }
            None => {}
        }
    }
    Ok(None)
}

/// The first node, and the first of the registers that it reads, such that the register is no
/// parameter and on some path from the entry to the node no node before it sets the register:
/// where the function breaks the Language Reference's rule that a definition dominates each of
/// its uses. `None` if there is no such place.
///
/// # Errors
///
/// `AllocError` if memory runs out.
pub fn first_undefined(alloc: Global, func: &Func) -> Result<Option<Undefined>, AllocError>
    requires { IsNamed func.now }
    ensures none { IfOk result (λ found. (found ≡ None) ↔ AreDefined func.now) }
    ensures first { IfOk result (NamesFirst func.now) }
{
    find(alloc, func)
}

/// A function of a whole program names its own nodes and registers.
pub fn functions_are_named()
    ensures { FuncsAreNamed }
{}
