// The types of the library.
ghost use Rattle.std.specs.Prelude.{◌≡◌, ◌++◌, ◌∷◌, [], OnOk, IfOk};
ghost use Rattle.px_program.specs.Library.{library_types, type_of};

use crate::{Name, TypeInfo};
use sqlite_items::Items;
use std::alloc::{AllocError, Global};

// Adds the type of this name in the namespace `System`, on the base of this number.
fn push(
    alloc: Global,
    types: &mut Vec<TypeInfo>,
    name: &str,
    base: Option<u32>,
) -> Result<(), AllocError>
    ensures { OnOk result (types.new.items ≡ types.old.items ++ (type_of name.now base ∷ [])) }
{
    let mut full = Vec::from_slice(alloc, b"System.")?;
    full.extend_from_slice(name.as_bytes())?;
    types.push(TypeInfo {
        name: Items::from_vec(full),
        base,
        element: None,
        fields: Items::new(alloc),
        statics: Items::new(alloc),
        overrides: Items::new(alloc),
    })?;
    Ok(())
}

/// The types of the library, which have the first eighteen numbers in every program: `Object`, the exceptions and `String`.
pub fn library_types(alloc: Global) -> Result<Vec<TypeInfo>, AllocError>
    ensures { IfOk result (λ types. types.items ≡ library_types) }
{
    let mut types = Vec::new(alloc);
    push(alloc, &mut types, "Object", None)?;
    push(alloc, &mut types, "Exception", Some(0))?;
    push(alloc, &mut types, "SystemException", Some(1))?;
    push(alloc, &mut types, "ArithmeticException", Some(2))?;
    push(alloc, &mut types, "DivideByZeroException", Some(3))?;
    push(alloc, &mut types, "OverflowException", Some(3))?;
    push(alloc, &mut types, "NullReferenceException", Some(2))?;
    push(alloc, &mut types, "IndexOutOfRangeException", Some(2))?;
    push(alloc, &mut types, "InvalidCastException", Some(2))?;
    push(alloc, &mut types, "ArrayTypeMismatchException", Some(2))?;
    push(alloc, &mut types, "ArgumentException", Some(2))?;
    push(alloc, &mut types, "ArgumentNullException", Some(10))?;
    push(alloc, &mut types, "ArgumentOutOfRangeException", Some(10))?;
    push(alloc, &mut types, "InvalidOperationException", Some(2))?;
    push(alloc, &mut types, "NotSupportedException", Some(2))?;
    push(alloc, &mut types, "NotImplementedException", Some(2))?;
    push(alloc, &mut types, "FormatException", Some(2))?;
    push(alloc, &mut types, "String", Some(0))?;
    Ok(types)
}
