// The methods that are met, and what their instructions add to them.
ghost use Rattle.std.specs.Prelude.{◌≡◌, ◌∷◌, [], ◌<◌, ◌^◌, length, option_to_list, IfOk, IfSome, OnOk};
ghost use Rattle.std.specs.List.{AllByRecursion, flat_map};
ghost use Rattle.px_link_reach.specs.Finding.{AreKept, is_call};
ghost use Rattle.px_link_reach.specs.Met.{IsOwned, add_new, calls_of, target_of, virtual_target_of, with_overriders};

use crate::overriding::Overriding;
use indexmap::IndexSet;
use px_code::RawInstr;
use px_link_tokens::{Operand, Tokens};
use std::alloc::{AllocError, Global};

// The opcodes of instructions that call methods, or make objects with them.
const CALL: u16 = 0x28;

const CALLVIRT: u16 = 0x6F;

const NEWOBJ: u16 = 0x73;

/// The methods that are met so far, in the order of their numbers, and those that `callvirt` named.
#[derive(Drop)]
pub struct Found {
    pub rows: IndexSet<u32>,
    pub virtual_targets: IndexSet<u32>,
}

// Adds a method where it is new. Numbers have 32 bits.
fn add(rows: &mut IndexSet<u32>, row: u32) -> Result<(), AllocError>
    ensures rows { OnOk result (rows.new.keys ≡ add_new rows.old.keys (row ∷ [])) }
    ensures few { OnOk result (length rows.new.keys < 2 ^ 32) }
{
    rows.insert(row)?;
    if rows.len() > u32::MAX as usize {
        return Err(AllocError);
    }
    Ok(())
}

// Adds those of some methods that are new.
fn add_all(rows: &mut IndexSet<u32>, more: &[u32]) -> Result<(), AllocError>
    requires few { length rows.old.keys < 2 ^ 32 }
    ensures rows { OnOk result (rows.new.keys ≡ add_new rows.old.keys more.now) }
    ensures few { OnOk result (length rows.new.keys < 2 ^ 32) }
{
    for row in more {
        add(rows, *row)?;
    }
    Ok(())
}

// Whether the token of an instruction may name a method.
fn is_call(opcode: u16) -> bool
    ensures { result ≡ is_call opcode }
{
    matches!(opcode, CALL | CALLVIRT | NEWOBJ)
}

// The method that an instruction calls, or makes an object with. Others aren't asked what they name, since that would copy their texts.
fn target_of(tokens: &Tokens, raw: &RawInstr) -> Result<Option<u32>, AllocError>
    ensures target { IfOk result (λ target. option_to_list target ≡ target_of tokens.now raw.now) }
    ensures owned { IfOk result (λ target. IfSome target (IsOwned tokens.now)) }
{
    if !is_call(raw.opcode) {
        return Ok(None);
    }
    let token = (raw.operand % (1 << 32)) as u32;
    match tokens.operand(raw.opcode, token)? {
        Some(Operand::Method(row)) => Ok(Some(row)),
        _ => Ok(None),
    }
}

impl Found {
    /// The methods to start with.
    pub fn new(alloc: Global, starts: &[u32]) -> Result<Found, AllocError>
        ensures rows { IfOk result (λ found. found.rows.keys ≡ add_new [] starts.now) }
        ensures few { IfOk result (λ found. length found.rows.keys < 2 ^ 32) }
        ensures targets { IfOk result (λ found. found.virtual_targets.keys ≡ []) }
    {
        let mut rows = IndexSet::new(alloc);
        add_all(&mut rows, starts)?;
        Ok(Found {
            rows,
            virtual_targets: IndexSet::new(alloc),
        })
    }

    // Adds the method that a `callvirt` names, and those that override it. All are there where it was named before.
    fn add_virtual(&mut self, overriding: &Overriding, target: u32) -> Result<(), AllocError>
        requires owned { IsOwned overriding.now.tables target }
        requires kept { AreKept overriding.now.tables overriding.now.lists self.old.rows.keys self.old.virtual_targets.keys }
        ensures rows { OnOk result (self.new.rows.keys ≡ add_new self.old.rows.keys (with_overriders overriding.now.lists target)) }
        ensures targets { OnOk result (self.new.virtual_targets.keys ≡ add_new self.old.virtual_targets.keys (target ∷ [])) }
        ensures kept { OnOk result (AreKept overriding.now.tables overriding.now.lists self.new.rows.keys self.new.virtual_targets.keys) }
    {
        if !self.virtual_targets.insert(target)? {
            return Ok(());
        }
        add(&mut self.rows, target)?;
        add_all(&mut self.rows, overriding.of(target))
    }

    // Adds what an instruction calls.
    fn add_calls(
        &mut self,
        tokens: &Tokens,
        overriding: &Overriding,
        raw: &RawInstr,
    ) -> Result<(), AllocError>
        requires same { overriding.now.tables ≡ tokens.now }
        requires kept { AreKept tokens.now overriding.now.lists self.old.rows.keys self.old.virtual_targets.keys }
        ensures rows { OnOk result (self.new.rows.keys ≡ add_new self.old.rows.keys (calls_of tokens.now overriding.now.lists raw.now)) }
        ensures targets { OnOk result (self.new.virtual_targets.keys ≡ add_new self.old.virtual_targets.keys (virtual_target_of tokens.now raw.now)) }
        ensures kept { OnOk result (AreKept tokens.now overriding.now.lists self.new.rows.keys self.new.virtual_targets.keys) }
    {
        match target_of(tokens, raw)? {
            Some(target) if raw.opcode == CALLVIRT => self.add_virtual(overriding, target),
            Some(target) => add(&mut self.rows, target),
            None => Ok(()),
        }
    }

    /// Adds what the instructions of a body call.
    pub fn add_code(
        &mut self,
        tokens: &Tokens,
        overriding: &Overriding,
        code: &[RawInstr],
    ) -> Result<(), AllocError>
        requires same { overriding.now.tables ≡ tokens.now }
        requires kept { AreKept tokens.now overriding.now.lists self.old.rows.keys self.old.virtual_targets.keys }
        ensures rows { OnOk result (self.new.rows.keys ≡ add_new self.old.rows.keys (flat_map (calls_of tokens.now overriding.now.lists) code.now)) }
        ensures targets { OnOk result (self.new.virtual_targets.keys ≡ add_new self.old.virtual_targets.keys (flat_map (virtual_target_of tokens.now) code.now)) }
        ensures kept { OnOk result (AreKept tokens.now overriding.now.lists self.new.rows.keys self.new.virtual_targets.keys) }
    {
        for raw in code {
            self.add_calls(tokens, overriding, raw)?;
        }
        Ok(())
    }
}
