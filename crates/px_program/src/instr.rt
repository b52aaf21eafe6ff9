// Instructions.
use crate::{Name, Place};
use sqlite_items::Items;

/// What two values are compared by.
#[derive(Clone, Copy, PartialEq, Eq)]
pub enum Test {
    Eq,
    Ne,
    Gt,
    Ge,
    Lt,
    Le,
}

/// A comparison of two patterns: of 64 bits where `wide`, else of 32, read as signed numbers where `signed`.
#[derive(Clone, Copy, PartialEq, Eq)]
pub struct Compare {
    pub test: Test,
    pub signed: bool,
    pub wide: bool,
}

/// An integer type that an instruction names: Partition III, 1.1.1.
#[derive(Clone, Copy, PartialEq, Eq)]
pub enum IntegerType {
    I1,
    U1,
    I2,
    U2,
    I4,
    U4,
    I8,
    U8,
    /// A native integer, of 64 bits here.
    N,
    UN,
}

/// The code units of a text in UTF-16.
pub type Text = Items<u16>;

/// What moves a value to the stack, from it, or on it.
#[derive(Drop)]
pub enum Move {
    /// `ldarg` of the parameter of this number, the receiver counted as the first: Partition III, 3.38.
    Argument(u32),
    /// `starg` to the parameter of this number, the receiver counted as the first: Partition III, 3.61.
    SetArgument(u32),
    /// `ldloc` of the local of this number: Partition III, 3.43.
    Local(u32),
    /// `stloc` to the local of this number: Partition III, 3.63.
    SetLocal(u32),
    /// `ldc.i4` of a pattern: Partition III, 3.40.
    Constant32(u32),
    /// `ldc.i8` of a pattern: Partition III, 3.40.
    Constant64(u64),
    /// `ldnull`: Partition III, 3.45.
    Null,
    /// `ldstr` of a text: Partition III, 4.16.
    Text(Text),
    /// `dup`: Partition III, 3.33.
    Duplicate,
    /// `pop`: Partition III, 3.54.
    Pop,
}

/// An operation on two integers of one kind that wraps, or goes bit by bit: Partition III, 3.1, 3.3, 3.48, 3.53, 3.64 and 3.67.
#[derive(Clone, Copy, PartialEq, Eq)]
pub enum Arithmetic {
    Add,
    Sub,
    Mul,
    And,
    Or,
    Xor,
}

/// What a division gives: Partition III, 3.31, 3.32, 3.55 and 3.56.
#[derive(Clone, Copy, PartialEq, Eq)]
pub enum Division {
    Quotient,
    Remainder,
}

/// An operation that throws where the result is out of range.
#[derive(Clone, Copy, PartialEq, Eq)]
pub enum Checked {
    Add,
    Sub,
    Mul,
}

/// `shl`, `shr` and `shr.un`: Partition III, 3.58 to 3.60.
#[derive(Clone, Copy, PartialEq, Eq)]
pub enum Shift {
    Left,
    Right,
    RightUnsigned,
}

/// `neg` and `not`: Partition III, 3.50 and 3.52.
#[derive(Clone, Copy, PartialEq, Eq)]
pub enum Unary {
    Negate,
    Complement,
}

/// What an instruction says of an array's elements: an integer type, whose width counts, any reference, or the place itself.
#[derive(Clone, Copy, PartialEq, Eq)]
pub enum ElementForm {
    Integer(IntegerType),
    Reference,
    Typed(Place),
}

/// A field by the number of the type that has it, and its place among that type's fields, or among its statics.
#[derive(Clone, Copy, PartialEq, Eq)]
pub struct Field {
    pub owner: u32,
    pub index: u32,
}

/// What is called: a method of the program, or a constructor of a type of the library that does nothing, with its parameters without the receiver.
#[derive(Drop)]
pub enum Callee {
    Method(u32),
    Constructor { class: u32, params: Items<Place> },
}

/// The two calls of `Microsoft.Pex.Framework` that are known: `PexAssume::IsTrue` and `PexAssert::IsTrue`.
#[derive(Clone, Copy, PartialEq, Eq)]
pub enum Check {
    Assume,
    Assert,
}

/// What an instruction does. Targets are offsets of instructions of its method; types, fields and methods go by the program's numbers.
#[derive(Drop)]
pub enum Code {
    /// `nop`, or `break` where `is_break`: Partition III, 3.51 and 3.16.
    Nop {
        is_break: bool,
    },
    Move(Move),
    Arithmetic(Arithmetic),
    /// `div` and `rem`: Partition III, 3.31 and 3.55.
    Divide(Division),
    /// `div.un` and `rem.un`: Partition III, 3.32 and 3.56.
    DivideUnsigned(Division),
    /// `add.ovf`, `sub.ovf` and `mul.ovf`, read unsigned where the name ends in `.un`: Partition III, 3.2, 3.49 and 3.65.
    Checked {
        operation: Checked,
        signed: bool,
    },
    Shift(Shift),
    Unary(Unary),
    /// `conv` to a type: Partition III, 3.27.
    Convert(IntegerType),
    /// `conv.ovf` to a type, from a number that is read unsigned where the name ends in `.un`: Partition III, 3.28 and 3.29.
    ConvertChecked {
        to: IntegerType,
        signed: bool,
    },
    /// `ceq`, `cgt` and `clt`, read unsigned where the name ends in `.un`: Partition III, 3.21 to 3.23, 3.25 and 3.26.
    Compare {
        test: Test,
        signed: bool,
    },
    /// `br`: Partition III, 3.15.
    Branch(u32),
    /// `brtrue` where `when` is true, and else `brfalse`: Partition III, 3.17 and 3.18.
    BranchTruth {
        when: bool,
        target: u32,
    },
    /// `beq` to `blt.un`, read unsigned where the name ends in `.un`: Partition III, 3.5 to 3.14.
    BranchCompare {
        test: Test,
        signed: bool,
        target: u32,
    },
    /// `switch` with its targets: Partition III, 3.66.
    Switch(Items<u32>),
    /// `newarr`, by the number of the array's own type: Partition III, 4.20.
    NewArray(u32),
    /// `ldlen`: Partition III, 4.12.
    Length,
    /// `ldelem`, or `stelem` where `store`: Partition III, 4.7, 4.8, 4.26 and 4.27.
    Element {
        store: bool,
        form: ElementForm,
    },
    /// `ldfld`, or `stfld` where `store`: Partition III, 4.10 and 4.28.
    Field {
        store: bool,
        field: Field,
    },
    /// `ldsfld`, or `stsfld` where `store`: Partition III, 4.14 and 4.30.
    Static {
        store: bool,
        field: Field,
    },
    /// `call`: Partition III, 3.19.
    Call(Callee),
    /// `callvirt` of an instance method: Partition III, 4.2.
    CallVirtual(u32),
    /// `newobj` with a constructor: Partition III, 4.21.
    NewObject(Callee),
    /// `castclass` where `throws`, and else `isinst`: Partition III, 4.3 and 4.6.
    Cast {
        throws: bool,
        class: u32,
    },
    /// `ret`: Partition III, 3.57.
    Return,
    /// `throw`, or `rethrow` where `again`: Partition III, 4.31 and 4.24.
    Throw {
        again: bool,
    },
    /// `leave`: Partition III, 3.46.
    Leave(u32),
    /// `endfinally`: Partition III, 3.35.
    EndFinally,
    Check(Check),
    /// An instruction that isn't run: the name of what it would need, and its opcode.
    Outside(Name, u16),
}

/// An instruction at its offset in the method's code; `next` is the offset after it.
#[derive(Drop)]
pub struct Instr {
    pub offset: u32,
    pub next: u32,
    pub code: Code,
}
