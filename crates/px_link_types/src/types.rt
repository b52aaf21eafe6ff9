// The types that a program has, in the order of their numbers.
ghost use Rattle.std.specs.Prelude.{◌≡◌, IfOk, OnErr, OnOk, true};
ghost use Rattle.std.specs.List.{AllByRecursion};
ghost use Rattle.px_link_types.specs.Keys.{IsKey};
ghost use Rattle.px_link_types.specs.Numbers.{Numbers, integer_place, is_numbered, library_keys, place_in};
ghost use Rattle.px_meta.specs.Faults.{IsFaultless};
ghost use Rattle.px_program.specs.Formed.{AreTypes};
ghost use Rattle.px_tables.specs.Metadata.{IsSound};
ghost use Rattle.px_link_types.specs.Infos.{AreInfos};
ghost use Rattle.px_link_types.specs.Parts.{IsKept};

use crate::infos::infos_of;
use crate::key::{Key, Leaf};
use crate::numbers::{add_library, number_all, number_of};
use indexmap::IndexSet;
use px_meta::{Meta, TYPE_DEFS};
use px_program::{Place, TypeInfo};
use px_sig::Integer;
use px_tables::Tables;
use std::alloc::{AllocError, Global};
use std::marker::Model;

/// The types of an assembly that have numbers: those of the library, and what was met, each in the order in which it was met first.
#[derive(Drop)]
pub struct Types<'m, 'a> {
    alloc: Global,
    meta: &'m Meta<'a>,
    keys: IndexSet<Key>,
}

impl<'m, 'a> Model for Types<'m, 'a> {
    ghost use Rattle.px_link_types.specs.Numbers.{Numbered};
    ghost use Rattle.px_link_types.specs.Parts.{IsKept};

    ghost Value = { Numbered };

    ghost view = { λ t. record { tables = t.meta.now; keys = t.keys.keys } };

    ghost invariant = { λ t. IsKept t.meta.now t.keys.keys };
}

// The place of an integer.
fn integer_place(integer: Integer) -> Place
    ensures { result ≡ integer_place integer }
{
    match integer {
        Integer::Bool => Place::Bool,
        Integer::Char => Place::Char,
        Integer::I1 => Place::I1,
        Integer::U1 => Place::U1,
        Integer::I2 => Place::I2,
        Integer::U2 => Place::U2,
        Integer::I4 => Place::I4,
        Integer::U4 => Place::U4,
        Integer::I8 => Place::I8,
        Integer::U8 => Place::U8,
        Integer::N => Place::N,
        Integer::UN => Place::UN,
    }
}

impl<'m, 'a> Types<'m, 'a> {
    /// The types of the library alone.
    pub fn new(alloc: Global, meta: &'m Meta<'a>) -> Result<Types<'m, 'a>, AllocError>
        ensures { IfOk result (λ types. types ≡ record { tables = meta.now; keys = library_keys }) }
    {
        let mut keys = IndexSet::new(alloc);
        add_library(&mut keys)?;
        Ok(Types { alloc, meta, keys })
    }

    /// Gives numbers to types that are met, and at once behind each to those of its own types that have none: an array's element; and else its base, and
    /// the types of its fields of instances and of its static fields by row. After want of memory no type has a number that had none before.
    pub fn meet(&mut self, met: &[Key]) -> Result<(), AllocError>
        requires there { AllByRecursion (IsKey self.old.tables) met.now }
        ensures tables { self.new.tables ≡ self.old.tables }
        ensures numbers { OnOk result (Numbers self.old.tables self.old.keys met.now self.new.keys) }
        ensures kept { OnErr result (self.new ≡ self.old) }
    {
        let before = self.keys.len();
        match number_all(self.alloc, self.meta, &mut self.keys, met) {
            Ok(()) => Ok(()),
            Err(fault) => {
                self.keys.truncate(before);
                Err(fault)
            }
        }
    }

    /// A key as a place of the program: an integer, or a reference to its number.
    pub fn place(&self, key: Key) -> Place
        requires { is_numbered self.now.keys key ≡ true }
        ensures { result ≡ place_in self.now.keys key }
    {
        match key {
            Key {
                depth: 0,
                leaf: Leaf::Number(integer),
            } => integer_place(integer),
            _ => Place::Ref(number_of(&self.keys, key)),
        }
    }

    // The metadata of the assembly.
    pub(crate) fn meta(&self) -> &'m Meta<'a>
        ensures { result.now ≡ self.now.tables }
    {
        self.meta
    }

    // The tables of the assembly, each index of which names a row.
    pub(crate) fn tables(&self) -> &'m Tables<'a>
        ensures same { result.now ≡ self.now.tables }
        ensures faultless { IsFaultless self.now.tables }
        ensures sound { IsSound self.now.tables }
    {
        let tables = self.meta.tables();
        // a call that says of the tables what is so of all that are read
        let _ = tables.rows(TYPE_DEFS);
        tables
    }

    /// What has numbers, in their order.
    pub fn keys(&self) -> &[Key]
        ensures keys { result.now ≡ self.now.keys }
        ensures kept { IsKept self.now.tables self.now.keys }
    {
        self.keys.as_slice()
    }

    /// What a program says of these types, in the order of their numbers: names, bases, elements and fields. No method takes the place of another in them
    /// yet. Together they are well formed.
    pub fn infos(&self, alloc: Global) -> Result<Vec<TypeInfo>, AllocError>
        ensures infos { IfOk result (λ types. AreInfos self.now.tables self.now.keys types.items) }
        ensures formed { IfOk result (λ types. AreTypes types.items) }
    {
        infos_of(alloc, self)
    }
}
