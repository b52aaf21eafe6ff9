// Names of methods: `Namespace.Outer/Inner::Method`.
ghost use Rattle.std.specs.Prelude.{◌≡◌, IfOk};
ghost use Rattle.px_meta.specs.Members.{IsMethod};
ghost use Rattle.px_meta.specs.Rows.{IsRow, methods};
ghost use Rattle.px_link_reach.specs.Met.{IsOwned};
ghost use Rattle.px_link_methods.specs.Methods.{IsMethodName};

use px_link_types::full_name;
use px_meta::{Meta, MetaMethod};
use px_program::Name;
use sqlite_items::Items;
use std::alloc::{AllocError, Global};

/// What the metadata say of a method, by its row.
pub fn method_at<'m, 'a>(meta: &'m Meta<'a>, row: u32) -> &'m MetaMethod<'a>
    requires { IsRow meta.now methods row }
    ensures { IsMethod meta.now row result.now }
{
    &meta.methods()[row as usize - 1]
}

/// The name of a method that some type has.
pub fn method_name(alloc: Global, meta: &Meta, row: u32) -> Result<Name, AllocError>
    requires { IsOwned meta.now row }
    ensures { IfOk result (IsMethodName meta.now row) }
{
    let method = method_at(meta, row);
    let mut name = full_name(alloc, meta, method.owner)?;
    name.append(Items::from_slice(alloc, b"::")?)?;
    name.append(Items::from_slice(alloc, method.name.as_bytes())?)?;
    Ok(name)
}
