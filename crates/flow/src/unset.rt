//! Where a function comes to with a register not yet set.
ghost use Rattle.std.specs.Prelude.{◌≡◌, ◌↔◌, ◌<◌, true, length, IfOk, IsTrue, vec_len, slice_index_or, []};
ghost use Rattle.std.specs.List.{Contains};
ghost use Rattle.least.specs.Sets.{has, Only, Within, Exactly};
ghost use Rattle.flow.specs.Paths.{IsGraph, Comes, SetsAt};

use flat_ir::RegId;
use least::{Rules, add, add_all, least_set};
use plain_list::Sequence;
use std::alloc::{AllocError, Global};

/// Whether a register is one of those.
fn is_among(registers: &[RegId], register: RegId) -> bool
    ensures { IsTrue result ↔ Contains registers.now register }
{
    registers.contains(&register)
}

/// Walks from node 0 that go on behind no node that sets the register.
#[derive(Drop)]
struct Walks<'a> {
    rows: &'a Sequence<Sequence<u32>>,
    results: &'a Sequence<Sequence<RegId>>,
    register: RegId,
    ghost nodes: { IsGraph rows.now },
    ghost size: { length results.now ≡ length rows.now },
    ghost starts: { 0 < length rows.now },
}

impl<'a> Walks<'a> {
    /// The walks come to their start.
    fn begin(&self, rule: usize, set: &mut [bool])
        requires rule { rule < length self.now.rows.now }
        requires size { length set.old ≡ length self.now.rows.now }
        requires only { Only (Comes self.now.rows.now self.now.results.now self.now.register) (has set.old) }
        ensures only { Only (Comes self.now.rows.now self.now.results.now self.now.register) (has set.new) }
        ensures grows { Within (has set.old) (has set.new) }
        ensures starts { rule ≡ 0 → has set.new rule ≡ true }
    {
        if rule == 0 {
            add(set, rule);
        }
    }

    /// The numbers of the nodes that a node leads to.
    fn row(&self, node: usize) -> &[u32]
        requires { node < length self.now.rows.now }
        ensures { result.now ≡ slice_index_or self.now.rows.now node [] }
    {
        self.rows.as_slice()[node].as_slice()
    }

    /// Whether a node sets the register.
    fn sets(&self, node: usize) -> bool
        requires { node < length self.now.rows.now }
        ensures { IsTrue result ↔ SetsAt self.now.results.now self.now.register node }
    {
        is_among(self.results.as_slice()[node].as_slice(), self.register)
    }
}

impl<'a> Rules for Walks<'a> {
    ghost use Rattle.std.specs.Prelude.{◌≡◌, length};
    ghost use Rattle.least.specs.Sets.{has};
    ghost use Rattle.flow.specs.Paths.{Comes, FiresAt};
    ghost use Rattle.flow.specs.PathLaws.{Fires-more, Comes-least};

    ghost size_of = { λ w. length w.rows.now };

    ghost rules_of = { λ w. length w.rows.now };

    ghost Fits = { λ w. Unit {0} };

    ghost Given = { λ w n. Comes w.rows.now w.results.now w.register n };

    ghost Fires = { λ w n S T. FiresAt w.rows.now w.results.now w.register n S T };

    fn size(&self) -> usize {
        self.rows.len()
    }

    fn rules(&self) -> usize {
        self.rows.len()
    }

    fn apply(&self, rule: usize, set: &mut [bool]) {
        self.begin(rule, set);
        let stops = self.sets(rule);
        if set[rule] && !stops {
            add_all(set, self.row(rule));
        }
    }

    ghost more = { λ w n S T U V. Fires-more w.rows.now w.results.now w.register n S T U V };

    ghost least = { λ w fits S fires n. Comes-least w.rows.now w.results.now w.register S fires w.starts n };
}

/// The nodes that some walk from node 0 comes to with the register not yet set.
pub fn unset(
    alloc: Global,
    rows: &Sequence<Sequence<u32>>,
    results: &Sequence<Sequence<RegId>>,
    register: RegId,
) -> Result<Vec<bool>, AllocError>
    requires graph { IsGraph rows.now }
    requires size { length results.now ≡ length rows.now }
    requires nonempty { 0 < length rows.now }
    ensures exact { IfOk result (λ set. Exactly (Comes rows.now results.now register) (has set.items)) }
    ensures len { IfOk result (λ set. vec_len set ≡ length rows.now) }
{
    let walks = Walks {
        rows,
        results,
        register,
    };
    least_set(alloc, &walks)
}
