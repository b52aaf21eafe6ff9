// Types in signatures, by the places of a program: Partition II, 23.2.12.
ghost use Rattle.std.specs.Prelude.{◌≡◌, ◌<◌, ◌^◌, true, Some, length, IfOk, IfSome, IfNone, slice_get};
ghost use Rattle.std.specs.List.{AllByRecursion, AllZip, list_all};
ghost use Rattle.px_asm_heaps.specs.Spelling.{IsSpelledSig, is_spelled, is_leaf_spelled};
ghost use Rattle.px_program.specs.Formed.{AreTypes, FitsPlace};
ghost use Rattle.px_program.specs.declared.program.Method.{Method};
ghost use Rattle.px_program.specs.declared.program.Place.TheVariants.{Ref};
ghost use Rattle.px_asm_described.specs.Describes.{IsSigOf, IsTypeOf, class_token};
ghost use Rattle.px_sig.specs.Grammar.{plain_type};
ghost use Rattle.px_asm_store.specs.Elements.{HoldsArray, IsLeaf, IsInnermost};
ghost use Rattle.px_asm_store.specs.Rows.{HasRoom, IsTyped};

use crate::rows::Rows;
use px_program::{Method, Place, Program};
use px_sig::{Integer, MethodSig, SigLeaf, SigType};
use sqlite_items::Items;
use std::alloc::{AllocError, Global};

/// The token of a class of the library or of the assembly.
pub fn class_token(rows: &Rows, class: u32) -> u32
    requires { IsTyped rows.now class }
    ensures { result ≡ class_token rows.now class }
{
    if class < 18 {
        0x0100_0000 + class + 1
    } else {
        0x0200_0000 + rows.type_row(class)
    }
}

// The place of the elements, where a place holds an array. A type of the library is none.
fn element_in(program: &Program, place: Place) -> Option<Place>
    requires types { AreTypes program.now.types }
    requires fits { FitsPlace program.now.types place }
    ensures array { IfSome result (HoldsArray program.now place) }
    ensures leaf { IfNone result (IsLeaf program.now place) }
{
    match place {
        Place::Ref(class) if class >= 18 => program.types.as_slice()[class as usize].element,
        _ => None,
    }
}

// How many arrays lie in each other where a place holds one, and the place of the elements of the innermost.
fn innermost(program: &Program, place: Place) -> (u32, Place)
    requires types { AreTypes program.now.types }
    requires few { length program.now.types < 2 ^ 23 }
    requires fits { FitsPlace program.now.types place }
    ensures { IsInnermost program.now place result.0 result.1 }
{
    let mut arrays = 0;
    let mut inner = place;
    while let Some(element) = element_in(program, inner) {
        arrays += 1;
        inner = element;
    }
    (arrays, inner)
}

// The type of a class.
fn class_type(rows: &Rows, class: u32) -> SigLeaf
    requires room { HasRoom rows.now }
    requires there { class < length rows.now.types }
    requires leaf { IsLeaf rows.now (Ref class) }
    ensures is { IsTypeOf rows.now (Ref class) (plain_type result) }
    ensures spelled { is_leaf_spelled result ≡ true }
{
    match class {
        0 => SigLeaf::Object,
        17 => SigLeaf::Str,
        _ => SigLeaf::Class(class_token(rows, class)),
    }
}

// The type of what a place holds that is no array.
fn leaf_type(rows: &Rows, place: Place) -> SigLeaf
    requires room { HasRoom rows.now }
    requires fits { FitsPlace rows.now.types place }
    requires leaf { IsLeaf rows.now place }
    ensures is { IsTypeOf rows.now place (plain_type result) }
    ensures spelled { is_leaf_spelled result ≡ true }
{
    match place {
        Place::Bool => SigLeaf::Int(Integer::Bool),
        Place::Char => SigLeaf::Int(Integer::Char),
        Place::I1 => SigLeaf::Int(Integer::I1),
        Place::U1 => SigLeaf::Int(Integer::U1),
        Place::I2 => SigLeaf::Int(Integer::I2),
        Place::U2 => SigLeaf::Int(Integer::U2),
        Place::I4 => SigLeaf::Int(Integer::I4),
        Place::U4 => SigLeaf::Int(Integer::U4),
        Place::I8 => SigLeaf::Int(Integer::I8),
        Place::U8 => SigLeaf::Int(Integer::U8),
        Place::N => SigLeaf::Int(Integer::N),
        Place::UN => SigLeaf::Int(Integer::UN),
        Place::Ref(class) => class_type(rows, class),
    }
}

/// The type that says in a signature what a place holds.
pub fn type_of(rows: &Rows, place: Place) -> SigType
    requires { FitsPlace rows.now.types place }
    ensures is { IsTypeOf rows.now place result }
    ensures spelled { is_spelled result ≡ true }
{
    let (depth, inner) = innermost(rows.program(), place);
    SigType {
        depth,
        leaf: leaf_type(rows, inner),
    }
}

/// The types of places.
pub fn types_of(alloc: Global, rows: &Rows, places: &[Place]) -> Result<Items<SigType>, AllocError>
    requires { AllByRecursion (FitsPlace rows.now.types) places.now }
    ensures are { IfOk result (AllZip (IsTypeOf rows.now) places.now) }
    ensures spelled { IfOk result (λ items. list_all is_spelled items ≡ true) }
{
    let mut types = Items::new(alloc);
    for place in places {
        types.push(type_of(rows, *place))?;
    }
    Ok(types)
}

/// The signature of a method of the program.
pub fn sig_of(alloc: Global, rows: &Rows, number: u32) -> Result<MethodSig, AllocError>
    requires { number < length rows.now.methods }
    ensures is { (method : Method) → slice_get rows.now.methods number ≡ Some method → IfOk result (IsSigOf rows.now method) }
    ensures spelled { IfOk result IsSpelledSig }
{
    let program = rows.program();
    let method = &program.methods.as_slice()[number as usize];
    let params = types_of(alloc, rows, method.params.as_slice())?;
    let ret = match method.ret {
        Some(place) => type_of(rows, place),
        None => SigType {
            depth: 0,
            leaf: SigLeaf::Void,
        },
    };
    Ok(MethodSig {
        has_this: !method.is_static,
        plain: true,
        ret,
        params,
    })
}
