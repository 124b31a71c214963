//! Rows of sites in their order, and tables of such rows.
ghost use Rattle.std.specs.Prelude.{◌≡◌, ◌↔◌, ◌<◌, ◌≤◌, ℕ, true, length, IfOk, slice_index_or, []};
ghost use Rattle.points_to.specs.Points as spec;
ghost use Rattle.points_to.specs.Points.{IsAscending, site_at};
ghost use Rattle.points_to.specs.Rows.{IsSmall, AddsToRow, AddsToRows, AddsToTable, IsRow, AreRows, IsTable};

use flat_ir::Site;
use std::alloc::{AllocError, Global};
use std::marker::Model;

/// The place of a site in the order of sites: globals, then nodes by function and by node.
pub fn rank(site: Site) -> u128
    requires { IsSmall site }
    ensures { result ≡ spec.rank site }
{
    match site {
        Site::Global(global) => global as u128,
        Site::Node(func, node) => (func.0 as u128 + 1) * 4294967296 + node.0 as u128,
    }
}

/// How many sites of a row stand before one.
fn place_of(row: &[Site], site: Site) -> usize
    requires row { IsRow row.now }
    requires small { IsSmall site }
    ensures within { result ≤ length row.now }
    ensures below { (k : ℕ) → k < result → spec.rank (site_at row.now k) < spec.rank site }
    ensures above { (k : ℕ) → result ≤ k → k < length row.now → spec.rank site ≤ spec.rank (site_at row.now k) }
{
    let wanted = rank(site);
    let mut low = 0;
    let mut high = row.len();
    'halves: while low < high {
        let middle = low + (high - low) / 2;
        if rank(row[middle]) < wanted {
            low = middle + 1;
        } else {
            high = middle;
        }
    }
    low
}

/// Whether a site stands at a place of a row.
fn stands_at(row: &[Site], at: usize, site: Site) -> bool
    ensures { (result ≡ true) ↔ ((at < length row.now) × (site_at row.now at ≡ site)) }
{
    match row.get(at) {
        Some(found) => *found == site,
        None => false,
    }
}

/// Sites in their order, each once.
#[derive(Drop)]
pub struct Row {
    sites: Vec<Site>,
}

impl Model for Row {
    ghost use Rattle.std.specs.Prelude.{List};
    ghost use Rattle.flat_ir.specs.declared.names.Site.{Site};

    ghost Value = { List Site };

    ghost view = { λ r. r.sites.items };
}

impl Row {
    pub fn new(alloc: Global) -> Row
        ensures { result ≡ [] }
    {
        Row {
            sites: Vec::new(alloc),
        }
    }

    pub fn as_slice(&self) -> &[Site]
        ensures { result.now ≡ self.now }
    {
        self.sites.as_slice()
    }

    /// Puts a site in its place, unless it stands there.
    fn add(&mut self, site: Site) -> Result<bool, AllocError>
        requires row { IsRow self.old }
        requires small { IsSmall site }
        ensures { IfOk result (λ added. AddsToRow self.old site added self.new) }
    {
        let at = place_of(self.sites.as_slice(), site);
        if stands_at(self.sites.as_slice(), at, site) {
            return Ok(false);
        }
        self.sites.insert(at, site)?;
        Ok(true)
    }
}

/// Rows by number.
#[derive(Drop)]
pub struct Rows {
    rows: Vec<Row>,
}

impl Model for Rows {
    ghost use Rattle.points_to.specs.Rows as spec;

    ghost Value = { spec.Rows };

    ghost view = { λ r. r.rows.items };
}

impl Rows {
    pub fn from_vec(rows: Vec<Row>) -> Rows
        ensures { result ≡ rows.items }
    {
        Rows { rows }
    }

    /// The sites of a row, none where there is no such row.
    pub fn row(&self, at: usize) -> &[Site]
        ensures { result.now ≡ slice_index_or self.now at [] }
    {
        match self.rows.get(at) {
            Some(row) => row.as_slice(),
            None => &[],
        }
    }

    fn add(&mut self, at: usize, site: Site) -> Result<bool, AllocError>
        requires rows { AreRows self.old }
        requires small { IsSmall site }
        ensures { IfOk result (λ added. AddsToRows self.old (at, site) added self.new) }
    {
        if at < self.rows.len() {
            return self.rows[at].add(site);
        }
        Ok(false)
    }
}

/// Rows by two numbers.
#[derive(Drop)]
pub struct Table {
    parts: Vec<Rows>,
}

impl Model for Table {
    ghost use Rattle.points_to.specs.Rows as spec;

    ghost Value = { spec.Table };

    ghost view = { λ t. t.parts.items };
}

impl Table {
    pub fn from_vec(parts: Vec<Rows>) -> Table
        ensures { result ≡ parts.items }
    {
        Table { parts }
    }

    /// The sites of a row, none where there is no such row.
    pub fn row(&self, part: usize, at: usize) -> &[Site]
        ensures { result.now ≡ slice_index_or (slice_index_or self.now part []) at [] }
    {
        match self.parts.get(part) {
            Some(rows) => rows.row(at),
            None => &[],
        }
    }

    pub fn add(&mut self, part: usize, at: usize, site: Site) -> Result<bool, AllocError>
        requires table { IsTable self.old }
        requires small { IsSmall site }
        ensures { IfOk result (λ added. AddsToTable self.old (part, (at, site)) added self.new) }
    {
        if part < self.parts.len() {
            return self.parts[part].add(at, site);
        }
        Ok(false)
    }
}
