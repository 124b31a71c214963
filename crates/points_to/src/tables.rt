//! The sites of all holders.
ghost use Rattle.std.specs.Prelude.{◌≡◌, ◌<◌, ◌≤◌, ◌||◌, ℕ, true, false, length, IfOk};
ghost use Rattle.std.specs.List.{Contains};
ghost use Rattle.points_to.specs.Rows.{IsSmall, AreSmall, AddsToTables, AreTables, row_of};
ghost use Rattle.points_to.specs.declared.holders.Inclusion.{Inclusion};
ghost use Rattle.points_to.specs.declared.holders.Inclusion.TheVariants as ask;
ghost use Rattle.points_to.specs.Solving as spec;
ghost use Rattle.points_to.specs.Solving.{Has, HeldBy, AreThose, Puts, PutsAll, PutsAllBytes, Applies, AppliesAll, Solves, IsSmallHolder, IsSmallIn, key_at};

use crate::rows::Table;
use crate::{Holder, Inclusion};
use flat_ir::Site;
use plain_list::Sequence;
use std::alloc::{AllocError, Global};

/// Where a holder's row stands.
#[derive(Clone, Copy)]
struct Place {
    kind: usize,
    part: usize,
    at: usize,
}

/// The tables, and whether something was added to them.
#[derive(Drop)]
pub struct Tables {
    pub kinds: Vec<Table>,
    pub changed: bool,
}

/// Where a holder's row stands: registers, nodes, globals, functions; the others have none.
fn place_of(holder: Holder) -> Place
    ensures { result ≡ spec.place_of holder }
{
    match holder {
        Holder::Register(func, register) => Place {
            kind: 0,
            part: func.0 as usize,
            at: register.0 as usize,
        },
        Holder::Bytes(Site::Node(func, node)) => Place {
            kind: 1,
            part: func.0 as usize,
            at: node.0 as usize,
        },
        Holder::Bytes(Site::Global(global)) => Place {
            kind: 2,
            part: 0,
            at: global as usize,
        },
        Holder::Returned(func) => Place {
            kind: 3,
            part: 0,
            at: func.0 as usize,
        },
        Holder::Address(global) => Place {
            kind: 4,
            part: 0,
            at: global as usize,
        },
        Holder::Nothing => Place {
            kind: 5,
            part: 0,
            at: 0,
        },
    }
}

fn either(one: bool, other: bool) -> bool
    ensures { result ≡ (one || other) }
{
    one || other
}

impl Tables {
    /// The sites of a row, none where there is no such row.
    fn row(&self, place: Place) -> &[Site]
        ensures { result.now ≡ row_of self.now.kinds.items place.kind place.part place.at }
    {
        match self.kinds.get(place.kind) {
            Some(table) => table.row(place.part, place.at),
            None => &[],
        }
    }

    /// The sites that a holder with a row may point to.
    fn stored(&self, alloc: Global, holder: Holder) -> Result<Sequence<Site>, AllocError>
        requires tables { AreTables self.now.kinds.items }
        requires stored { spec.IsStored holder }
        ensures { IfOk result (λ sites. AreThose (Has self.now.kinds.items holder) sites) }
    {
        Sequence::from_slice(alloc, self.row(place_of(holder)))
    }

    /// The sites that a holder may point to.
    fn sites_of(&self, alloc: Global, holder: Holder) -> Result<Sequence<Site>, AllocError>
        requires tables { AreTables self.now.kinds.items }
        requires small { IsSmallHolder holder }
        ensures { IfOk result (λ sites. AreThose (Has self.now.kinds.items holder) sites) }
    {
        match holder {
            Holder::Address(global) => Sequence::of_one(alloc, Site::Global(global)),
            Holder::Nothing => Ok(Sequence::new(alloc)),
            Holder::Register(..) | Holder::Returned(..) | Holder::Bytes(..) => {
                self.stored(alloc, holder)
            }
        }
    }

    /// The sites that the bytes of some sites may point to.
    fn held_by(&self, alloc: Global, targets: &[Site]) -> Result<Sequence<Site>, AllocError>
        requires tables { AreTables self.now.kinds.items }
        ensures { IfOk result (λ sites. AreThose (HeldBy self.now.kinds.items targets.now) sites) }
    {
        let mut found = Vec::new(alloc);
        for target in targets {
            found.extend_from_slice(self.row(place_of(Holder::Bytes(*target))))?;
        }
        Ok(Sequence::from_vec(found))
    }

    fn add_at(&mut self, place: Place, site: Site) -> Result<bool, AllocError>
        requires tables { AreTables self.old.kinds.items }
        requires small { IsSmall site }
        ensures added { IfOk result (λ added. AddsToTables self.old.kinds.items (key_at place site) added self.new.kinds.items) }
        ensures changed { self.new.changed ≡ self.old.changed }
    {
        if place.kind < self.kinds.len() {
            return self.kinds[place.kind].add(place.part, place.at, site);
        }
        Ok(false)
    }

    /// Puts a site in for a holder.
    fn add(&mut self, holder: Holder, site: Site) -> Result<(), AllocError>
        requires tables { AreTables self.old.kinds.items }
        requires small { IsSmall site }
        ensures { IfOk result (λ _. Puts self.old.kinds.items self.old.changed holder site self.new.kinds.items self.new.changed) }
    {
        let added = self.add_at(place_of(holder), site)?;
        self.changed = either(self.changed, added);
        Ok(())
    }

    /// Puts sites in for a holder.
    fn add_all(&mut self, holder: Holder, sites: &[Site]) -> Result<(), AllocError>
        requires tables { AreTables self.old.kinds.items }
        requires small { AreSmall sites.now }
        ensures { IfOk result (λ _. PutsAll self.old.kinds.items self.old.changed holder sites.now self.new.kinds.items self.new.changed) }
    {
        for site in sites {
            self.add(holder, *site)?;
        }
        Ok(())
    }

    /// Puts sites in for the bytes of some sites.
    fn add_to_bytes(&mut self, targets: &[Site], sites: &[Site]) -> Result<(), AllocError>
        requires tables { AreTables self.old.kinds.items }
        requires small { AreSmall sites.now }
        ensures { IfOk result (λ _. PutsAllBytes self.old.kinds.items self.old.changed targets.now sites.now self.new.kinds.items self.new.changed) }
    {
        for target in targets {
            self.add_all(Holder::Bytes(*target), sites)?;
        }
        Ok(())
    }

    /// A holder may point where another may.
    fn copy(&mut self, alloc: Global, from: Holder, to: Holder) -> Result<(), AllocError>
        requires tables { AreTables self.old.kinds.items }
        requires small { IsSmallHolder from }
        ensures { IfOk result (λ _. Applies (ask.Copies from to) self.old.kinds.items self.old.changed self.new.kinds.items self.new.changed) }
    {
        let sites = self.sites_of(alloc, from)?;
        self.add_all(to, sites.as_slice())
    }

    /// A holder may point where the bytes may to which a pointer points.
    fn load(&mut self, alloc: Global, pointer: Holder, to: Holder) -> Result<(), AllocError>
        requires tables { AreTables self.old.kinds.items }
        requires small { IsSmallHolder pointer }
        ensures { IfOk result (λ _. Applies (ask.Loads pointer to) self.old.kinds.items self.old.changed self.new.kinds.items self.new.changed) }
    {
        let targets = self.sites_of(alloc, pointer)?;
        let sites = self.held_by(alloc, targets.as_slice())?;
        self.add_all(to, sites.as_slice())
    }

    /// The bytes to which a pointer points may point where a holder may.
    fn store(&mut self, alloc: Global, from: Holder, pointer: Holder) -> Result<(), AllocError>
        requires tables { AreTables self.old.kinds.items }
        requires from { IsSmallHolder from }
        requires pointer { IsSmallHolder pointer }
        ensures { IfOk result (λ _. Applies (ask.Stores from pointer) self.old.kinds.items self.old.changed self.new.kinds.items self.new.changed) }
    {
        let sites = self.sites_of(alloc, from)?;
        let targets = self.sites_of(alloc, pointer)?;
        self.add_to_bytes(targets.as_slice(), sites.as_slice())
    }

    /// Bytes may point where other bytes may.
    fn move_bytes(&mut self, alloc: Global, from: Holder, to: Holder) -> Result<(), AllocError>
        requires tables { AreTables self.old.kinds.items }
        requires from { IsSmallHolder from }
        requires to { IsSmallHolder to }
        ensures { IfOk result (λ _. Applies (ask.Moves from to) self.old.kinds.items self.old.changed self.new.kinds.items self.new.changed) }
    {
        let sources = self.sites_of(alloc, from)?;
        let targets = self.sites_of(alloc, to)?;
        let sites = self.held_by(alloc, sources.as_slice())?;
        self.add_to_bytes(targets.as_slice(), sites.as_slice())
    }

    /// A site is named for a holder.
    fn name(&mut self, to: Holder, site: Site) -> Result<(), AllocError>
        requires tables { AreTables self.old.kinds.items }
        requires small { IsSmall site }
        ensures { IfOk result (λ _. Applies (ask.Names to site) self.old.kinds.items self.old.changed self.new.kinds.items self.new.changed) }
    {
        self.add(to, site)
    }

    /// Does what is asked.
    fn apply(&mut self, alloc: Global, inclusion: Inclusion) -> Result<(), AllocError>
        requires tables { AreTables self.old.kinds.items }
        requires small { IsSmallIn inclusion }
        ensures { IfOk result (λ _. Applies inclusion self.old.kinds.items self.old.changed self.new.kinds.items self.new.changed) }
    {
        match inclusion {
            Inclusion::Names { to, site } => self.name(to, site),
            Inclusion::Copies { from, to } => self.copy(alloc, from, to),
            Inclusion::Loads { pointer, to } => self.load(alloc, pointer, to),
            Inclusion::Stores { from, pointer } => self.store(alloc, from, pointer),
            Inclusion::Moves { from, to } => self.move_bytes(alloc, from, to),
        }
    }

    /// Does once all that is asked.
    fn round(&mut self, alloc: Global, list: &[Inclusion]) -> Result<(), AllocError>
        requires tables { AreTables self.old.kinds.items }
        requires small { (c : Inclusion) → Contains list.now c → IsSmallIn c }
        ensures { IfOk result (λ _. AppliesAll list.now self.old.kinds.items self.old.changed self.new.kinds.items self.new.changed) }
    {
        for inclusion in list {
            self.apply(alloc, *inclusion)?;
        }
        Ok(())
    }

    /// Does all that is asked until nothing is added.
    pub fn solve(&mut self, alloc: Global, list: &[Inclusion]) -> Result<(), AllocError>
        requires tables { AreTables self.old.kinds.items }
        requires small { (c : Inclusion) → Contains list.now c → IsSmallIn c }
        ensures { IfOk result (λ _. Solves list.now self.old.kinds.items self.new.kinds.items) }
    {
        'rounds: loop {
            self.changed = false;
            self.round(alloc, list)?;
            if !self.changed {
                return Ok(());
            }
        }
    }
}
