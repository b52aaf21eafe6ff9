// The program of one method.
ghost use Rattle.std.specs.Prelude.{◌≡◌, IfOk};
ghost use Rattle.std.specs.List.{AllByRecursion};
ghost use Rattle.px_program.specs.Alone.{alone, array_of, types_with};
ghost use Rattle.px_program.specs.Formed.{CanBegin, IsFormedIn, IsInteger, IsWellFormed};

use crate::{Layout, Method, MethodTable, Place, Program, TypeInfo, TypeTable, library_types};
use sqlite_items::Items;
use std::alloc::{AllocError, Global};

// The array type whose elements a place holds.
fn array_of(alloc: Global, element: Place) -> TypeInfo
    ensures { result ≡ array_of element }
{
    TypeInfo {
        name: Items::new(alloc),
        base: Some(0),
        element: Some(element),
        fields: Items::new(alloc),
        statics: Items::new(alloc),
        overrides: Items::new(alloc),
    }
}

// The types of the library, and after them the arrays of these elements.
fn types_with(alloc: Global, elements: &[Place]) -> Result<Items<TypeInfo>, AllocError>
    ensures { IfOk result (λ types. types ≡ types_with elements.now) }
{
    let mut types = library_types(alloc)?;
    for element in elements {
        types.push(array_of(alloc, *element))?;
    }
    Ok(Items::from_vec(types))
}

/// The program of one static method alone: the types of the library, from number 18 on the arrays of these elements, and the method.
pub fn alone(alloc: Global, elements: &[Place], method: Method) -> Result<Program, AllocError>
    requires integers { AllByRecursion IsInteger elements.now }
    requires begins { CanBegin (alone elements.now method) method }
    requires formed { IsFormedIn (alone elements.now method) method }
    ensures program { IfOk result (λ program. program ≡ alone elements.now method) }
    ensures well_formed { IfOk result IsWellFormed }
{
    let types = TypeTable::new(alloc, types_with(alloc, elements)?)?;
    let mut methods = MethodTable::new(alloc);
    methods.push(method)?;
    Ok(Program {
        types,
        methods,
        entry: 0,
        maker: None,
        layout: Layout::empty(alloc),
    })
}
