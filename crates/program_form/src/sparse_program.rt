//! Programs that are kept by their nonzero coefficients.

ghost use Rattle.std.specs.Prelude.{◌≡◌, ℕ, ◌+◌, ◌<◌, ◌≤◌, [], ◌∷◌, ◌++◌, length, IfOk, OnOk};
ghost use Rattle.program_form.specs.Program.{IsProgram, columns, height, cost, row, entry, limit};
ghost use Rattle.program_form.specs.RowBlock.{lists_of};
ghost use Rattle.program_form.specs.SparseRows.{full_row, AreCoefficients, AreListed, sparse_rows_seen};
ghost use Rattle.program_form.specs.Listings.{ListsRows, ListsUpTo};

use crate::MOST_NUMBER;
use crate::program::Program;
use crate::sparse_rows::{Coefficient, SparseRows};
use std::alloc::{AllocError, Global};
use std::marker::Model;

/// A program that is kept by its nonzero coefficients. You can renew its limits.
///
/// To a contract it is the same three lists as a [`Program`]. A coefficient takes 16 bytes, and a zero takes none.
#[derive(Debug, Drop)]
pub struct SparseProgram {
    costs: Vec<u64>,
    rows: SparseRows,
}

impl Model for SparseProgram {
    ghost use Rattle.program_form.specs.Program.{ProgramDef};

    ghost Value = { ProgramDef };

    ghost use Rattle.program_form.specs.SparseView.{sparse_view, IsKept};

    ghost view = { sparse_view };

    ghost invariant = { IsKept };
}

impl SparseProgram {
    /// The same program. It fails only for want of memory.
    pub fn new(alloc: Global, program: &Program) -> Result<SparseProgram, AllocError>
        ensures { IfOk result (λ p. p ≡ program.now) }
    {
        let costs = costs_of(alloc, program)?;
        let rows = rows_of(alloc, program)?;
        Ok(SparseProgram { costs, rows })
    }

    /// The program of these costs and rows, kept as they are: the cost of each column, and the nonzero coefficients of each row. It takes
    /// no memory.
    pub fn over(costs: Vec<u64>, rows: SparseRows) -> SparseProgram
        requires listed { AreListed (length costs.items) rows.rows }
        requires program { IsProgram (lists_of costs.items (sparse_rows_seen (length costs.items) rows)) }
        ensures { result ≡ lists_of costs.items (sparse_rows_seen (length costs.items) rows) }
    {
        SparseProgram { costs, rows }
    }

    /// How many columns there are.
    pub fn columns(&self) -> u32
        ensures value { result ≡ columns self.now }
        ensures program { IsProgram self.now }
    {
        self.costs.len() as u32
    }

    /// How many rows there are.
    pub fn rows(&self) -> u32
        ensures value { result ≡ height self.now }
        ensures program { IsProgram self.now }
    {
        self.rows.count() as u32
    }

    /// What a unit of column `c` is worth, in ticks.
    pub fn cost(&self, c: u32) -> u64
        requires { c < columns self.now }
        ensures value { result ≡ cost self.now c }
        ensures most { result ≤ MOST_NUMBER }
    {
        self.costs[c as usize]
    }

    /// The greatest value that the sum of row `r` may have.
    pub fn limit(&self, r: u32) -> u64
        requires { r < height self.now }
        ensures value { result ≡ limit self.now r }
        ensures most { result ≤ MOST_NUMBER }
    {
        self.rows.limits()[r as usize]
    }

    /// The limit of each row.
    pub fn limits(&self) -> &[u64]
        ensures value { result.now ≡ self.now.limits }
        ensures program { IsProgram self.now }
    {
        self.rows.limits()
    }

    /// Puts these limits in the place of its own, and leaves the rest as it is.
    pub fn renew(&mut self, limits: Vec<u64>)
        requires { IsProgram (record { costs = self.old.costs; rows = self.old.rows; limits = limits.items }) }
        ensures { self.new ≡ record { costs = self.old.costs; rows = self.old.rows; limits = limits.items } }
    {
        self.rows.renew(limits);
    }

    /// The coefficients of row `r` that aren't zero, in rising order of their columns.
    pub fn coefficients(&self, r: usize) -> &[Coefficient]
        requires { r < height self.now }
        ensures listed { AreCoefficients (columns self.now) result.now }
        ensures row { full_row (columns self.now) result.now ≡ row self.now r }
        ensures program { IsProgram self.now }
    {
        self.rows.row(r)
    }
}

// The cost of each column.
fn costs_of(alloc: Global, program: &Program) -> Result<Vec<u64>, AllocError>
    ensures { IfOk result (λ v. v.items ≡ program.now.costs) }
{
    let mut list = Vec::with_capacity(alloc, program.columns() as usize)?;
    for c in 0..program.columns() {
        list.push(program.cost(c))?;
    }
    Ok(list)
}

// How many columns of a row are looked at together.
const BLOCK: u32 = 16;

// The bits that some coefficient of row `r` has, from column `first` up to column `last`.
fn bits_between(program: &Program, r: u32, first: u32, last: u32) -> u64
    requires row { r < height program.now }
    requires within { last ≤ columns program.now }
    ensures { (c : ℕ) → first ≤ c → c < last → entry program.now r c ≤ result }
{
    let mut bits = 0;
    for c in first..last {
        bits |= program.entry(r, c);
    }
    bits
}

// Adds the nonzero coefficients of row `r`, from column `first` up to column `last`. Row `r` is the last row begun.
fn add_between(
    rows: &mut SparseRows,
    program: &Program,
    r: u32,
    first: u32,
    last: u32,
) -> Result<(), AllocError>
    requires row { r < height program.now }
    requires order { first ≤ last }
    requires within { last ≤ columns program.now }
    requires earlier { ListsUpTo program.now r first rows.old.rows }
    ensures rows { OnOk result (ListsUpTo program.now r last rows.new.rows) }
    ensures limits { OnOk result (rows.new.limits ≡ rows.old.limits) }
{
    // most blocks are all zeros; to see this takes no branch for each coefficient
    if bits_between(program, r, first, last) == 0 {
        return Ok(());
    }
    for column in first..last {
        let number = program.entry(r, column);
        if number != 0 {
            rows.add(Coefficient { column, number })?;
        }
    }
    Ok(())
}

// Adds row `r` behind those before it.
fn add_row(rows: &mut SparseRows, program: &Program, r: u32) -> Result<(), AllocError>
    requires row { r < height program.now }
    requires earlier { ListsRows program.now r rows.old.rows }
    ensures rows { OnOk result (ListsRows program.now (r + 1) rows.new.rows) }
    ensures limits { OnOk result (rows.new.limits ≡ rows.old.limits ++ limit program.now r ∷ []) }
{
    rows.begin(program.limit(r))?;
    let columns = program.columns();
    let mut first = 0;
    while first < columns {
        let last = first.saturating_add(BLOCK).min(columns);
        add_between(rows, program, r, first, last)?;
        first = last;
    }
    Ok(())
}

// The nonzero coefficients of each row.
fn rows_of(alloc: Global, program: &Program) -> Result<SparseRows, AllocError>
    ensures rows { IfOk result (λ b. ListsRows program.now (height program.now) b.rows) }
    ensures limits { IfOk result (λ b. b.limits ≡ program.now.limits) }
    ensures program { IsProgram program.now }
{
    let mut rows = SparseRows::new(alloc);
    for r in 0..program.rows() {
        add_row(&mut rows, program, r)?;
    }
    Ok(rows)
}
