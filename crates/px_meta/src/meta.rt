// Types and members.
use px_shared::Shared;
use px_sig::{MethodSig, SigType};

/// A type of the assembly: Partition II, 22.37. `base` is a token, and `outer` the row of the type that it is nested in.
#[derive(Clone, Copy)]
pub struct MetaType<'a> {
    pub namespace: &'a str,
    pub name: &'a str,
    pub flags: u32,
    pub base: Option<u32>,
    pub first_field: u32,
    pub first_method: u32,
    pub outer: Option<u32>,
}

/// A method of the assembly: Partition II, 22.26. `owner` is the row of its type, and 0 where no type has it.
#[derive(Drop)]
pub struct MetaMethod<'a> {
    pub owner: u32,
    pub name: &'a str,
    pub flags: u16,
    pub rva: u32,
    pub sig: Shared<MethodSig>,
}

/// A field of the assembly: Partition II, 22.15. `owner` is the row of its type, and 0 where no type has it.
#[derive(Drop)]
pub struct MetaField<'a> {
    pub owner: u32,
    pub name: &'a str,
    pub flags: u16,
    pub sig: SigType,
}

/// What a token of a member names.
#[derive(Clone, Copy)]
pub enum Member<'m> {
    /// A method of the assembly, by its row.
    Method(u32),
    /// A field of the assembly, by its row.
    Field(u32),
    /// A reference: the token of its parent, its name, and its signature where it is a method.
    External {
        owner: u32,
        name: &'m str,
        sig: Option<&'m MethodSig>,
    },
}
