// What each method overrides at once.
ghost use Rattle.std.specs.Prelude.{◌≡◌, ℕ, IfOk, IfSome, MatchOption};
ghost use Rattle.px_meta.specs.Faults.{IsFaultless};
ghost use Rattle.px_meta.specs.Overriding.{Overrides};
ghost use Rattle.px_meta.specs.Rows.{IsRow, count_of, methods};

use px_meta::{METHODS, Meta};
use std::alloc::{AllocError, Global};
use std::marker::Model;

/// For each method of an assembly, the method that it overrides at once, where it overrides one.
#[derive(Drop)]
pub struct Parents<'m, 'a> {
    meta: &'m Meta<'a>,
    // by the rows of methods
    rows: Vec<Option<u32>>,
}

impl<'m, 'a> Model for Parents<'m, 'a> {
    ghost use Rattle.px_link_reach.specs.Parts.{AreParents};
    ghost use Rattle.px_tables.specs.Metadata.{View};

    ghost Value = { View };

    ghost view = { λ p. p.meta.now };

    ghost invariant = { λ p. AreParents p.meta.now p.rows.items };
}

impl<'m, 'a> Parents<'m, 'a> {
    /// Asks each method once.
    pub fn new(alloc: Global, meta: &'m Meta<'a>) -> Result<Parents<'m, 'a>, AllocError>
        ensures { IfOk result (λ parents. parents ≡ meta.now) }
    {
        let count = meta.tables().rows(METHODS);
        let mut rows = Vec::new(alloc);
        for n in 0..count {
            rows.push(meta.overridden_row(n + 1))?;
        }
        Ok(Parents { meta, rows })
    }

    /// The assembly.
    pub fn meta(&self) -> &'m Meta<'a>
        ensures { result.now ≡ self.now }
    {
        self.meta
    }

    /// How many methods there are.
    pub fn count(&self) -> u32
        ensures { result ≡ count_of self.now methods }
    {
        self.meta.tables().rows(METHODS)
    }

    /// The method that a method overrides at once. No method comes back to itself this way, since the tables are without a fault.
    pub fn of(&self, method: u32) -> Option<u32>
        requires { IsRow self.now methods method }
        ensures overridden { MatchOption result ((other : ℕ) → Overrides self.now method other → ⊥) (Overrides self.now method) }
        ensures there { IfSome result (IsRow self.now methods) }
        ensures faultless { IsFaultless self.now }
    {
        self.rows[method as usize - 1]
    }
}
