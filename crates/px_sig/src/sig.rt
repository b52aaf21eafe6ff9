// Types and signatures.
use sqlite_items::Items;

/// An integer type: Partition I, 8.2.2.
#[derive(Clone, Copy, PartialEq, Eq)]
pub enum Integer {
    Bool,
    Char,
    I1,
    U1,
    I2,
    U2,
    I4,
    U4,
    I8,
    U8,
    /// A native integer.
    N,
    UN,
}

/// A type that is no one-dimensional array: Partition II, 23.2.12.
#[derive(Clone, Copy, PartialEq, Eq)]
pub enum SigLeaf {
    Void,
    Int(Integer),
    Str,
    Object,
    /// A class by its token: the number of its table times 2^24, and its row.
    Class(u32),
    /// A type of any other form.
    Other,
}

/// A type as a signature spells it: a leaf, in so many one-dimensional arrays with indexes from 0: Partition II, 23.2.12.
#[derive(Clone, Copy, PartialEq, Eq)]
pub struct SigType {
    pub depth: u32,
    pub leaf: SigLeaf,
}

/// The signature of a method: Partition II, 23.2.1 to 23.2.3. `has_this` says that it has a receiver, which isn't among its parameters.
/// `plain` is false where it has type parameters or a variable list of arguments, or states the receiver's type.
#[derive(Drop)]
pub struct MethodSig {
    pub has_this: bool,
    pub plain: bool,
    pub ret: SigType,
    pub params: Items<SigType>,
}
