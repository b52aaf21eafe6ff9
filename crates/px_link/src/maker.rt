// The constructor that makes the object of an instance method.
ghost use Rattle.std.specs.Prelude.{◌≡◌, Some};
ghost use Rattle.px_meta.specs.Members.{list_end, list_start};
ghost use Rattle.px_meta.specs.Rows.{IsRow, methods, type_defs};
ghost use Rattle.px_link.specs.Link.{maker_in, takes_nothing};
ghost use Rattle.px_link.specs.Parts.{is_constructor, maker_for, makes};

use px_link_tokens::is_void;
use px_link_types::is_class;
use px_meta::{METHODS, Meta, MetaMethod, TYPE_DEFS};
use px_sig::MethodSig;

// A plain signature of an instance method that takes nothing and returns nothing.
fn takes_nothing(sig: &MethodSig) -> bool
    ensures { result ≡ takes_nothing (Some sig.now) }
{
    sig.has_this && sig.plain && is_void(sig.ret) && sig.params.is_empty()
}

fn is_constructor(method: &MetaMethod) -> bool
    ensures { result ≡ is_constructor method.now }
{
    method.name.as_bytes() == b".ctor".as_slice()
}

// Whether a method is a constructor of a type that takes nothing, and has a body.
fn makes(method: &MetaMethod, class: u32) -> bool
    ensures { result ≡ makes class method.now }
{
    method.owner == class
        && is_constructor(method)
        && method.rva != 0
        && takes_nothing(method.sig.get())
}

// Where the list of a type's methods begins.
fn list_start(meta: &Meta, class: u32) -> u64
    requires { IsRow meta.now type_defs class }
    ensures { result ≡ list_start meta.now methods class }
{
    u64::from(meta.types()[class as usize - 1].first_method)
}

// Where the list of a type's methods ends: where that of the next type begins, or behind the last method.
fn list_end(meta: &Meta, class: u32) -> u64
    requires { IsRow meta.now type_defs class }
    ensures { result ≡ list_end meta.now methods class }
{
    let tables = meta.tables();
    if class == tables.rows(TYPE_DEFS) {
        u64::from(tables.rows(METHODS)) + 1
    } else {
        list_start(meta, class + 1)
    }
}

// The first such constructor of a class. Only its own list is walked.
fn maker_in(meta: &Meta, class: u32) -> Option<u32>
    requires { IsRow meta.now type_defs class }
    ensures { result ≡ maker_in meta.now class }
{
    if !is_class(meta.tables(), class) {
        return None;
    }
    let methods = meta.methods();
    let last = list_end(meta, class).min(u64::from(meta.tables().rows(METHODS)) + 1);
    for row in list_start(meta, class).max(1).min(last)..last {
        if makes(&methods[row as usize - 1], class) {
            return Some(row as u32);
        }
    }
    None
}

/// The constructor that makes the object of a method, where it needs one.
pub fn maker_of(meta: &Meta, method: &MetaMethod) -> Option<u32>
    requires { IsRow meta.now type_defs method.now.owner }
    ensures { result ≡ maker_for meta.now method.now }
{
    if method.sig.get().has_this {
        maker_in(meta, method.owner)
    } else {
        None
    }
}
