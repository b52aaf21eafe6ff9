// Types and signatures: an array is written as the type of its elements and `[]`, arrays in arrays as that of the innermost and how many they are.
ghost use Rattle.std.specs.Prelude.{◌<◌, ◌^◌, length};

use crate::pieces::Piece::{Number, Text, Token};
use crate::pieces::put_pieces;
use px_sig::{
    Integer, MethodSig, SigFault, SigLeaf, SigType, read_field_sig, read_locals_sig,
    read_method_sig, read_type_sig,
};
use std::alloc::{AllocError, Global};

fn integer_name(integer: Integer) -> &'static str {
    match integer {
        Integer::Bool => "bool",
        Integer::Char => "char",
        Integer::I1 => "int8",
        Integer::U1 => "uint8",
        Integer::I2 => "int16",
        Integer::U2 => "uint16",
        Integer::I4 => "int32",
        Integer::U4 => "uint32",
        Integer::I8 => "int64",
        Integer::U8 => "uint64",
        Integer::N => "nint",
        Integer::UN => "nuint",
    }
}

// Writes a type that is no array.
fn put_leaf(leaf: SigLeaf, text: &mut String) -> Result<(), AllocError> {
    match leaf {
        SigLeaf::Void => text.push_str("void"),
        SigLeaf::Int(integer) => text.push_str(integer_name(integer)),
        SigLeaf::Str => text.push_str("string"),
        SigLeaf::Object => text.push_str("object"),
        SigLeaf::Class(token) => put_pieces(text, &[Text("class "), Token(token)]),
        SigLeaf::Other => text.push_str("other"),
    }
}

// Writes so many pairs of brackets; many as how many they are.
fn put_brackets(text: &mut String, depth: u32) -> Result<(), AllocError> {
    match depth {
        0 => Ok(()),
        1 => text.push_str("[]"),
        2 => text.push_str("[][]"),
        _ => put_pieces(text, &[Text("[] "), Number(depth), Text(" times")]),
    }
}

/// Writes a type.
pub fn put_type(of: SigType, text: &mut String) -> Result<(), AllocError> {
    put_leaf(of.leaf, text)?;
    put_brackets(text, of.depth)
}

// Writes types in brackets.
fn put_types(types: &[SigType], text: &mut String) -> Result<(), AllocError> {
    let mut mark = "(";
    for of in types {
        text.push_str(mark)?;
        put_type(*of, text)?;
        mark = ", ";
    }
    text.push_str(if types.is_empty() { "()" } else { ")" })
}

/// Writes the signature of a method.
pub fn put_method(method: &MethodSig, text: &mut String) -> Result<(), AllocError> {
    let this = if method.has_this { "this " } else { "" };
    let special = if method.plain { "" } else { "special " };
    put_pieces(text, &[Text(this), Text(special)])?;
    put_type(method.ret, text)?;
    put_types(method.params.as_slice(), text)
}

// Writes why a blob is no signature.
fn put_fault(text: &mut String, fault: SigFault) -> Result<(), AllocError> {
    match fault {
        SigFault::Memory => text.push_str("no memory"),
        SigFault::Bad { at } => put_pieces(text, &[Text("fault at "), Number(at)]),
    }
}

/// Writes the signature of a method that a blob is.
pub fn put_method_of(alloc: Global, text: &mut String, blob: &[u8]) -> Result<(), AllocError>
    requires { length blob.now < 2 ^ 31 }
{
    match read_method_sig(alloc, blob) {
        Ok(method) => put_method(&method, text),
        Err(fault) => put_fault(text, fault),
    }
}

/// Writes the type in the signature of a field that a blob is.
pub fn put_field_of(alloc: Global, text: &mut String, blob: &[u8]) -> Result<(), AllocError>
    requires { length blob.now < 2 ^ 31 }
{
    match read_field_sig(alloc, blob) {
        Ok(field) => put_type(field, text),
        Err(fault) => put_fault(text, fault),
    }
}

/// Writes the types in the signature of locals that a blob is.
pub fn put_locals_of(alloc: Global, text: &mut String, blob: &[u8]) -> Result<(), AllocError>
    requires { length blob.now < 2 ^ 31 }
{
    match read_locals_sig(alloc, blob) {
        Ok(locals) => put_types(locals.as_slice(), text),
        Err(fault) => put_fault(text, fault),
    }
}

/// Writes the type that a blob is.
pub fn put_type_of(alloc: Global, text: &mut String, blob: &[u8]) -> Result<(), AllocError>
    requires { length blob.now < 2 ^ 31 }
{
    match read_type_sig(alloc, blob) {
        Ok(of) => put_type(of, text),
        Err(fault) => put_fault(text, fault),
    }
}
