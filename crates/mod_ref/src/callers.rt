//! The functions whose calls may change one location.
ghost use Rattle.std.specs.Prelude.{◌≡◌, ◌<◌, ℕ, length, IfOk, vec_len};
ghost use Rattle.std.specs.Option.{option_copied};
ghost use Rattle.least.specs.Sets.{has, Exactly};
ghost use Rattle.mod_ref.specs.Changes.{Changes};
ghost use Rattle.points_to.specs.Within.{callee_of};
ghost use Rattle.mod_ref.specs.Callers.{func, AreOwn, AnyCalls, CallsInto, CallsMember, Tells};

use flat_ir::{FuncId, Location, Node, ProgramData};
use least::{Rules, add, least_set};
use std::alloc::{AllocError, Global};

/// The calls of a program, and the functions that change a location by themselves.
#[derive(Drop)]
struct Callers<'a> {
    program: &'a ProgramData,
    at: Location,
    own: &'a [bool],
}

/// The function that a node calls.
pub fn callee(node: &Node) -> Option<FuncId>
    ensures { result ≡ callee_of node.now }
{
    match node {
        Node::Call { callee, .. } => Some(*callee),
        _ => None,
    }
}

/// Whether a set has a number.
fn is_in(set: &[bool], number: usize) -> bool
    ensures { result ≡ has set.now number }
{
    number < set.len() && set[number]
}

/// Whether a node calls a member of the set.
fn calls_member(node: &Node, set: &[bool]) -> bool
    ensures { Tells result (CallsMember node.now (has set.now)) }
{
    match callee(node) {
        Some(called) => is_in(set, called.0 as usize),
        None => false,
    }
}

/// Whether one of the nodes calls a member of the set.
fn any_calls(nodes: &[Node], set: &[bool]) -> bool
    ensures { Tells result (AnyCalls nodes.now (has set.now)) }
{
    for node in nodes {
        if calls_member(node, set) {
            return true;
        }
    }
    false
}

impl<'a> Callers<'a> {
    /// Whether a function calls a member of the set.
    fn calls_into(&self, function: usize, set: &[bool]) -> bool
        requires { function < length self.now.program.now.funcs }
        ensures { Tells result (CallsInto self.now.program.now (func function) (has set.now)) }
    {
        any_calls(
            self.program.funcs.as_slice()[function].nodes.as_slice(),
            set,
        )
    }
}

impl<'a> Rules for Callers<'a> {
    ghost use Rattle.std.specs.Prelude.{◌≡◌, length};
    ghost use Rattle.mod_ref.specs.Changes.{Changes};
    ghost use Rattle.mod_ref.specs.Callers.{func, AreOwn, FiresAt};
    ghost use Rattle.mod_ref.specs.CallerLaws.{Fires-more, Changes-least};

    ghost size_of = { λ c. length c.program.now.funcs };

    ghost rules_of = { λ c. length c.program.now.funcs };

    ghost Fits = { λ c. AreOwn c.program.now c.at c.own.now × (length c.own.now ≡ length c.program.now.funcs) };

    ghost Given = { λ c k. Changes c.program.now (func k) c.at };

    ghost Fires = { λ c k S T. FiresAt c.program.now c.own.now k S T };

    fn size(&self) -> usize {
        self.program.funcs.len()
    }

    fn rules(&self) -> usize {
        self.program.funcs.len()
    }

    fn apply(&self, rule: usize, set: &mut [bool]) {
        let calls = self.calls_into(rule, set);
        if self.own[rule] || calls {
            add(set, rule);
        }
    }

    ghost more = { λ c k S T U V. Fires-more c.program.now c.own.now k S T U V };

    ghost least = { λ c fits S fires k. Changes-least c.program.now c.at c.own.now fits.0 fits.1 S fires (func k) };
}

/// The functions whose calls may change a location, from those that change it by themselves.
pub(crate) fn changers(
    alloc: Global,
    program: &ProgramData,
    at: Location,
    own: &[bool],
) -> Result<Vec<bool>, AllocError>
    requires own { AreOwn program.now at own.now }
    requires size { length own.now ≡ length program.now.funcs }
    ensures exact { IfOk result (λ set. Exactly (λ k. Changes program.now (func k) at) (has set.items)) }
    ensures len { IfOk result (λ set. vec_len set ≡ length program.now.funcs) }
{
    let callers = Callers { program, at, own };
    least_set(alloc, &callers)
}
