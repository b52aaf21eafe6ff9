// What tokens name in an assembly.
ghost use Rattle.std.specs.Prelude.{◌≡◌, IfOk, IfSome};
ghost use Rattle.px_meta.specs.Rows.{IsRow, type_defs};
ghost use Rattle.px_link_tokens.specs.Operands.{has_initialiser, operand_of, type_operand};
ghost use Rattle.px_link_tokens.specs.Outside.{IsOutsideName};
ghost use Rattle.px_link_tokens.specs.Parts.{AreInitialised, IsThere};

use crate::callees::callee_at;
use crate::elements::{array_in, element_at, type_at};
use crate::fields::field_at;
use crate::initialisers::initialised;
use crate::methods::{Way, method_at};
use crate::names::outside_name;
use crate::operand::Operand;
use crate::texts::text_at;
use px_link_types::Key;
use px_meta::Meta;
use px_program::Name;
use std::alloc::{AllocError, Global};
use std::marker::Model;

/// The tokens of an assembly.
#[derive(Drop)]
pub struct Tokens<'m, 'a> {
    alloc: Global,
    meta: &'m Meta<'a>,
    // for each type, whether it has an initialiser
    initialised: Vec<bool>,
}

impl<'m, 'a> Model for Tokens<'m, 'a> {
    ghost use Rattle.px_link_tokens.specs.Parts.{AreInitialised};
    ghost use Rattle.px_tables.specs.Metadata.{View};

    ghost Value = { View };

    ghost view = { λ t. t.meta.now };

    ghost invariant = { λ t. AreInitialised t.meta.now t.initialised.items };
}

// A type as an operand.
fn type_operand(key: Option<Key>) -> Option<Operand>
    ensures { result ≡ type_operand key }
{
    Some(Operand::Type(key?))
}

impl<'m, 'a> Tokens<'m, 'a> {
    /// The tokens of an assembly. It takes one turn per method, to see which types have initialisers.
    pub fn new(alloc: Global, meta: &'m Meta<'a>) -> Result<Tokens<'m, 'a>, AllocError>
        ensures { IfOk result (λ tokens. tokens ≡ meta.now) }
    {
        let initialised = initialised(alloc, meta)?;
        Ok(Tokens {
            alloc,
            meta,
            initialised,
        })
    }

    /// The metadata of the assembly.
    pub fn meta(&self) -> &'m Meta<'a>
        ensures { result.now ≡ self.now }
    {
        self.meta
    }

    // Whether a type has an initialiser.
    pub(crate) fn has_initialiser(&self, row: u32) -> bool
        requires { IsRow self.now type_defs row }
        ensures { result ≡ has_initialiser self.now row }
    {
        self.initialised[row as usize - 1]
    }

    /// What the token of an instruction names, by the opcode. None where the instruction isn't run: its opcode takes no token or isn't known, the
    /// token names nothing that fits the instruction, or what it names is beyond the profile.
    #[tactic(auto, unfolding(crate::specs::Operands::operand_of))]
    pub fn operand(&self, opcode: u16, token: u32) -> Result<Option<Operand>, AllocError>
        ensures operand { IfOk result (λ operand. operand ≡ operand_of self.now opcode token) }
        ensures there { IfOk result (λ operand. IfSome operand (IsThere self.now)) }
    {
        match opcode {
            0x72 => text_at(self.alloc, self.meta, token),
            0x8D => Ok(type_operand(array_in(element_at(self.meta, token)))),
            0xA3 | 0xA4 => Ok(type_operand(element_at(self.meta, token))),
            0x74 | 0x75 => Ok(type_operand(type_at(self.meta, token))),
            0x7B | 0x7D => Ok(field_at(self, false, token)),
            0x7E | 0x80 => Ok(field_at(self, true, token)),
            0x28 => callee_at(self.alloc, self, false, token),
            0x6F => Ok(method_at(self, Way::CalledVirtually, token)),
            0x73 => callee_at(self.alloc, self, true, token),
            _ => Ok(None),
        }
    }

    /// The name of an instruction that isn't run: `Namespace.Outer/Inner::Member` where its token is a reference to a member whose parent is a type, or
    /// names a method without a body, or the opcode is that of `callvirt` and the token names a method; and else that of its opcode.
    pub fn outside_name(&self, opcode: u16, token: u32) -> Result<Name, AllocError>
        ensures { IfOk result (IsOutsideName self.now opcode token) }
    {
        outside_name(self.alloc, self.meta, opcode, token)
    }
}
