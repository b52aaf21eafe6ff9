// Types and members, as lines.
use crate::pieces::Piece::{Hex, Number, Text, Token};
use crate::pieces::{number_or_none, put_pieces, token_or_none};
use crate::signature::{put_method, put_type};
use px_meta::{Member, MetaField, MetaMethod, MetaType};
use px_sig::{MethodSig, SigType};
use std::alloc::AllocError;

/// Writes the namespace and the name of a type.
pub fn put_names<'a>(
    text: &mut String,
    names: Option<(&'a str, &'a str)>,
) -> Result<(), AllocError> {
    match names {
        Some((namespace, name)) => put_pieces(text, &[Text(namespace), Text("."), Text(name)]),
        None => text.push_str("none"),
    }
}

/// Writes the type that a type specification spells.
pub fn put_spec(text: &mut String, spec: Option<&SigType>) -> Result<(), AllocError> {
    match spec {
        Some(of) => put_type(*of, text),
        None => text.push_str("none"),
    }
}

/// Writes a type.
pub fn put_meta_type(text: &mut String, of: Option<&MetaType>) -> Result<(), AllocError> {
    let Some(of) = of else {
        return text.push_str("none");
    };
    let pieces = [
        Text(of.namespace),
        Text("."),
        Text(of.name),
        Text(", flags "),
        Hex(of.flags),
        Text(", base "),
        token_or_none(of.base),
        Text(", outer "),
        number_or_none(of.outer),
        Text(", fields from "),
        Number(of.first_field),
        Text(", methods from "),
        Number(of.first_method),
    ];
    put_pieces(text, &pieces)
}

/// Writes a field.
pub fn put_field(text: &mut String, field: Option<&MetaField>) -> Result<(), AllocError> {
    let Some(field) = field else {
        return text.push_str("none");
    };
    let pieces = [
        Text(field.name),
        Text(" of type "),
        Number(field.owner),
        Text(", flags "),
        Hex(u32::from(field.flags)),
        Text(", "),
    ];
    put_pieces(text, &pieces)?;
    put_type(field.sig, text)
}

/// Writes a method.
pub fn put_meta_method(text: &mut String, method: Option<&MetaMethod>) -> Result<(), AllocError> {
    let Some(method) = method else {
        return text.push_str("none");
    };
    let pieces = [
        Text(method.name),
        Text(" of type "),
        Number(method.owner),
        Text(", flags "),
        Hex(u32::from(method.flags)),
        Text(", code at "),
        Number(method.rva),
        Text(", "),
    ];
    put_pieces(text, &pieces)?;
    put_method(method.sig.get(), text)
}

// Writes a reference to a member.
fn put_reference(
    text: &mut String,
    owner: u32,
    name: &str,
    sig: Option<&MethodSig>,
) -> Result<(), AllocError> {
    put_pieces(text, &[Text(name), Text(" of "), Token(owner), Text(", ")])?;
    match sig {
        Some(sig) => put_method(sig, text),
        None => text.push_str("a field"),
    }
}

/// Writes what a token of a member names.
pub fn put_member(text: &mut String, member: Option<Member>) -> Result<(), AllocError> {
    match member {
        Some(Member::Method(row)) => put_pieces(text, &[Text("method "), Number(row)]),
        Some(Member::Field(row)) => put_pieces(text, &[Text("field "), Number(row)]),
        Some(Member::External { owner, name, sig }) => put_reference(text, owner, name, sig),
        None => text.push_str("none"),
    }
}
