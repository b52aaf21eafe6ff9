// Types, methods and programs.
ghost use Rattle.std.specs.Prelude.{◌≡◌, slice_get};
ghost use Rattle.px_program.specs.Alone.{no_layout};
ghost use Rattle.px_program.specs.Arguments.{arguments_of};
ghost use Rattle.px_program.specs.Formed.{all_params};

use crate::{Instr, MethodTable, TypeTable};
use px_shared::SharedList;
use sqlite_items::Items;
use std::alloc::Global;

/// The bytes of a UTF-8 text.
pub type Name = Items<u8>;

/// What a parameter, a field or an element holds: Partition I, 8.2.2, without floats.
#[derive(Clone, Copy, PartialEq, Eq)]
pub enum Place {
    Bool,
    Char,
    I1,
    U1,
    I2,
    U2,
    I4,
    U4,
    I8,
    U8,
    /// A native integer, of 64 bits here.
    N,
    UN,
    /// A reference to the type of this number.
    Ref(u32),
}

/// A type: its name, the numbers of its base and of its element's place, and its fields in order.
/// `overrides` has pairs of a method and the method that takes its place in this type, in the order of the first.
#[derive(Drop)]
pub struct TypeInfo {
    pub name: Name,
    pub base: Option<u32>,
    pub element: Option<Place>,
    pub fields: Items<Place>,
    pub statics: Items<Place>,
    pub overrides: Items<(u32, u32)>,
}

/// What a protected range is for: Partition II, 25.4.6.
#[derive(Clone, Copy, PartialEq, Eq)]
pub enum ClauseKind {
    Catch,
    Filter,
    Finally,
    Fault,
}

/// A protected range of offsets, `from` to `to`, and the block that handles it, `start` to `stop`.
#[derive(Clone, Copy, PartialEq, Eq)]
pub struct Clause {
    pub kind: ClauseKind,
    pub from: u32,
    pub to: u32,
    pub start: u32,
    pub stop: u32,
    pub class: Option<u32>,
}

/// A method. `owner` is the number of its type. An instance method has a receiver beside its parameters: a reference to its owner.
#[derive(Drop)]
pub struct Method {
    pub name: Name,
    pub owner: u32,
    pub is_static: bool,
    pub params: SharedList<Place>,
    pub ret: Option<Place>,
    pub locals: SharedList<Place>,
    pub max_stack: u16,
    pub code: SharedList<Instr>,
    pub clauses: SharedList<Clause>,
}

impl Method {
    /// What `ldarg` and `starg` mean by a number: the receiver is the first parameter where there is one (Partition I, 8.6.1.5). None where there are fewer.
    pub fn param(&self, number: u32) -> Option<Place>
        ensures { result ≡ slice_get (all_params self.now) number }
    {
        if self.is_static {
            self.params.get(number as usize).copied()
        } else if number == 0 {
            Some(Place::Ref(self.owner))
        } else {
            self.params.get(number as usize - 1).copied()
        }
    }
}

/// What a method is in overriding: Partition II, 10.3. `overridden` is the nearest method that it overrides, at once or through others, of those that the
/// program has.
#[derive(Clone, Copy, PartialEq, Eq)]
pub struct Slot {
    pub is_virtual: bool,
    pub overridden: Option<u32>,
}

/// How an assembly has what a program has, all by numbers: its types and the methods, each in the order of their rows, and the slots of the methods. No run
/// asks for it, but it takes this to write the program as an assembly again. A program that is linked from no assembly has an empty one.
#[derive(Drop)]
pub struct Layout {
    pub types: Items<u32>,
    pub methods: Items<u32>,
    pub slots: Items<Slot>,
}

impl Layout {
    /// That of a program that is linked from no assembly.
    pub fn empty(alloc: Global) -> Layout
        ensures { result ≡ no_layout }
    {
        Layout {
            types: Items::new(alloc),
            methods: Items::new(alloc),
            slots: Items::new(alloc),
        }
    }
}

/// A program: a run begins with the method numbered `entry`, after `maker` on a new object where there is one.
#[derive(Drop)]
pub struct Program {
    pub types: TypeTable,
    pub methods: MethodTable,
    pub entry: u32,
    pub maker: Option<u32>,
    pub layout: Layout,
}

impl Program {
    /// What a run is given: the places of the entry's parameters, its receiver not among them.
    pub fn arguments(&self) -> &[Place]
        ensures { result.now ≡ arguments_of self.now }
    {
        match self.methods.get(self.entry as usize) {
            Some(method) => method.params.as_slice(),
            None => &[],
        }
    }
}
