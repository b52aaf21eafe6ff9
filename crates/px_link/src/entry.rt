// The method that a program begins with.
ghost use Rattle.std.specs.Prelude.{◌≡◌, ◌≤◌, length, IfOk, IfErr, IfSome};
ghost use Rattle.px_meta.specs.Members.{IsMethod};
ghost use Rattle.px_meta.specs.Rows.{IsRow, methods};
ghost use Rattle.px_pe.specs.Image as pe;
ghost use Rattle.px_link.specs.Link.{Blames, first_unfit, is_argument, is_integer};
ghost use Rattle.px_link.specs.Names.{IsOnly};
ghost use Rattle.px_link.specs.Parts.{IsEntryOf};

use crate::LinkFault;
use crate::maker::maker_of;
use crate::name::is_named;
use px_meta::{METHODS, Meta, MetaMethod};
use px_sig::{SigLeaf, SigType};

// How many parameters can be given.
const MOST: usize = 16;

/// The row of the method that is linked, and that of the constructor which makes its object where it needs one.
#[derive(Clone, Copy)]
pub struct Entry {
    pub method: u32,
    pub maker: Option<u32>,
}

// The row of the one method of this name.
fn find_method(meta: &Meta, name: &[u8]) -> Result<u32, LinkFault>
    ensures found { IfOk result (IsOnly meta.now name.now) }
    ensures fault { (image : pe.View) → IfErr result (Blames meta.now image name.now) }
{
    let methods = meta.methods();
    let mut found = None;
    for at in 0..meta.tables().rows(METHODS) {
        if is_named(meta, &methods[at as usize], name) {
            if found.is_some() {
                return Err(LinkFault::Ambiguous);
            }
            found = Some(at + 1);
        }
    }
    found.ok_or(LinkFault::NoMethod)
}

fn method_at<'m, 'a>(meta: &'m Meta<'a>, row: u32) -> &'m MetaMethod<'a>
    requires { IsRow meta.now methods row }
    ensures { IsMethod meta.now row result.now }
{
    &meta.methods()[row as usize - 1]
}

// Whether a domain can be given for a parameter of this type.
fn is_argument(item: SigType) -> bool
    ensures { result ≡ is_argument item }
{
    item.depth <= 1 && matches!(item.leaf, SigLeaf::Int(_))
}

// The number of the first parameter that can't be given.
fn first_unfit(params: &[SigType]) -> Option<u32>
    ensures { result ≡ first_unfit params.now }
{
    for (at, param) in params.iter().enumerate() {
        if at == MOST || !is_argument(*param) {
            return Some(at as u32);
        }
    }
    None
}

/// The one method of this name, with its maker. The first of what is wrong with it is told.
pub fn find_entry(meta: &Meta, name: &[u8]) -> Result<Entry, LinkFault>
    ensures entry { IfOk result (IsEntryOf meta.now name.now) }
    ensures fault { (image : pe.View) → IfErr result (Blames meta.now image name.now) }
{
    let row = find_method(meta, name)?;
    let method = method_at(meta, row);
    let sig = method.sig.get();
    if method.rva == 0 || !sig.plain {
        return Err(LinkFault::NoBody);
    }
    if let Some(number) = first_unfit(sig.params.as_slice()) {
        return Err(LinkFault::BadParameter(number));
    }
    let maker = maker_of(meta, method);
    if sig.has_this && maker.is_none() {
        return Err(LinkFault::NoMaker);
    }
    Ok(Entry { method: row, maker })
}
