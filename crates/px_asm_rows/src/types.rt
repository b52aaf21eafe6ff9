// The rows of TypeRef and TypeDef: Partition II, 22.37 and 22.38.
ghost use Rattle.std.specs.Prelude.{◌≡◌, ◌+◌, ◌<◌, ℕ, true, List, Some, IfOk, IfSome, OnOk, ◌^◌, ◌⊎◌, ◌*◌, ◌≤◌, codes, drop, length, map, slice_get, slice_index};
ghost use Rattle.std.specs.List.{AllByRecursion, AllPairs, AllZip};
ghost use Rattle.px_asm_heaps.specs.Heaps.{HasString};
ghost use Rattle.px_meta.specs.FullNames.{with_namespace};
ghost use Rattle.px_link_methods.specs.Codes.{place_of};
ghost use Rattle.px_program.specs.Library.{library_types};
ghost use Rattle.px_program.specs.declared.program.Method.{Method};
ghost use Rattle.px_program.specs.declared.program.TypeInfo.{TypeInfo};
ghost use Rattle.px_asm_described.specs.Describes.{extends_of};
ghost use Rattle.px_asm_described.specs.Writable.{IsText, owner_place};
ghost use Rattle.px_asm_law_written.specs.Holds.{AreTypeDefs, IsModule, IsTypeRef, all_referred, methods_before, system};
ghost use Rattle.px_asm_store.specs.Rows.{IsLaid};
ghost use Rattle.px_asm_law_written.specs.Store.{StoreGrows};
ghost use Rattle.px_asm_rows.specs.Tables.{IsTypeDefOf};

use px_asm_store::{Rows, Store};
use px_program::library_types;
use px_tables::Row;
use std::alloc::{AllocError, Global};

// A class that others see and that is set up before its first field is reached: Partition II, 23.1.15.
const CLASS: u32 = 0x0010_0001;

// A reference to a type, by the row of its assembly and the place of its namespace.
fn type_ref(
    store: &mut Store,
    assembly: u32,
    namespace: u32,
    name: &[u8],
) -> Result<Row, AllocError>
    requires few { assembly < 4 }
    requires text { IsText name.now }
    ensures row { (text : List ℕ) → HasString store.old.strings namespace text → IfOk result (IsTypeRef store.new (record { assembly = assembly; namespace = text; name = name.now })) }
    ensures grows { OnOk result (StoreGrows store.old store.new) }
{
    let name = store.name(name)?;
    Ok(Row {
        cells: [4 * assembly + 2, name, namespace, 0, 0, 0, 0, 0, 0],
    })
}

// The references to the types of the library.
fn library_refs(alloc: Global, store: &mut Store) -> Result<Vec<Row>, AllocError>
    ensures are { IfOk result (λ made. AllZip (IsTypeRef store.new) (map system library_types) made.items) }
    ensures grows { OnOk result (StoreGrows store.old store.new) }
{
    let namespace = store.name(b"System")?;
    let types = library_types(alloc)?;
    let mut made = Vec::new(alloc);
    for info in &types {
        let name = &info.name.as_slice()[7..];
        made.push(type_ref(store, 1, namespace, name)?)?;
    }
    Ok(made)
}

// The references to the two checkers.
fn checker_refs(alloc: Global, store: &mut Store) -> Result<Vec<Row>, AllocError>
    ensures are { IfOk result (λ made. AllZip (IsTypeRef store.new) (drop 18 all_referred) made.items) }
    ensures grows { OnOk result (StoreGrows store.old store.new) }
{
    let namespace = store.name(b"Microsoft.Pex.Framework")?;
    let mut made = Vec::new(alloc);
    made.push(type_ref(store, 2, namespace, b"PexAssume")?)?;
    made.push(type_ref(store, 2, namespace, b"PexAssert")?)?;
    Ok(made)
}

/// The references to types: those of the library by their numbers, and the two checkers.
pub fn type_refs(alloc: Global, store: &mut Store) -> Result<Vec<Row>, AllocError>
    ensures are { IfOk result (λ made. AllZip (IsTypeRef store.new) all_referred made.items) }
    ensures grows { OnOk result (StoreGrows store.old store.new) }
{
    let mut made = library_refs(alloc, store)?;
    let mut checkers = checker_refs(alloc, store)?;
    made.append(&mut checkers)?;
    Ok(made)
}

// Where the namespace of a full name ends: at its last dot that something stands before.
fn namespace_end(name: &[u8]) -> Option<usize>
    ensures { IfSome result (λ at. (0 < at) × (at < length name.now) × (slice_index name.now at ≡ 46)) }
{
    let mut end = None;
    for (at, byte) in name.iter().enumerate() {
        if *byte == b'.' && at > 0 {
            end = Some(at);
        }
    }
    end
}

// The namespace and the name of which a full name is made.
fn split_name(name: &[u8]) -> (&[u8], &[u8])
    requires { IsText name.now }
    ensures full { with_namespace result.0.now result.1.now ≡ name.now }
    ensures namespace { IsText result.0.now }
    ensures name { IsText result.1.now }
{
    match namespace_end(name) {
        Some(end) => (&name[..end], &name[end + 1..]),
        None => (&name[..0], name),
    }
}

// The rows of the owners of methods in TypeDef.
fn owner_rows(alloc: Global, rows: &Rows, numbers: &[u32]) -> Result<Vec<u32>, AllocError>
    requires { AllByRecursion (λ number. number < length rows.now.methods) numbers.now }
    ensures { IfOk result (λ owners. owners.items ≡ map (λ number. owner_place rows.now number + 2) numbers.now) }
{
    let mut owners = Vec::new(alloc);
    for number in numbers {
        let method = &rows.program().methods.as_slice()[*number as usize];
        owners.push(rows.type_row(method.owner))?;
    }
    Ok(owners)
}

// The row of a base, as a coded index.
fn extends_of(rows: &Rows, base: Option<u32>) -> u32
    requires { IfSome base (λ base. (base < 17) ⊎ ((18 ≤ base) × IsLaid rows.now base)) }
    ensures { result ≡ extends_of rows.now base }
{
    match base {
        None => 0,
        Some(base) if base < 18 => 4 * (base + 1) + 1,
        Some(base) => 4 * rows.type_row(base),
    }
}

// The row of the first method of a type, by the rows of the owners of all methods.
fn first_method(rows: &Rows, owners: &[u32], number: u32) -> u32
    requires laid { IsLaid rows.now number }
    requires owners { owners.now ≡ map (λ method. owner_place rows.now method + 2) rows.now.layout.methods }
    requires ordered { AllPairs (λ method later. owner_place rows.now method ≤ owner_place rows.now later) rows.now.layout.methods }
    requires few { length owners.now < 2 ^ 23 }
    ensures first { result ≡ methods_before rows.now (place_of rows.now.layout.types number) + 1 }
{
    let row = rows.type_row(number);
    owners.partition_point(|owner| *owner < row) as u32 + 1
}

// The row of a type.
fn type_def(rows: &Rows, store: &mut Store, owners: &[u32], number: u32) -> Result<Row, AllocError>
    requires laid { IsLaid rows.now number }
    requires owners { owners.now ≡ map (λ method. owner_place rows.now method + 2) rows.now.layout.methods }
    ensures row { IfOk result (IsTypeDefOf rows.now store.new number) }
    ensures grows { OnOk result (StoreGrows store.old store.new) }
{
    let info = &rows.program().types.as_slice()[number as usize];
    let (namespace, name) = split_name(info.name.as_slice());
    let namespace = store.name(namespace)?;
    let name = store.name(name)?;
    let base = extends_of(rows, info.base);
    let fields = rows.first_field(number);
    let methods = first_method(rows, owners, number);
    Ok(Row {
        cells: [CLASS, name, namespace, base, fields, methods, 0, 0, 0],
    })
}

// The rows of the types of the assembly.
fn class_rows(
    alloc: Global,
    rows: &Rows,
    store: &mut Store,
    owners: &[u32],
    numbers: &[u32],
) -> Result<Vec<Row>, AllocError>
    requires laid { AllByRecursion (IsLaid rows.now) numbers.now }
    requires owners { owners.now ≡ map (λ method. owner_place rows.now method + 2) rows.now.layout.methods }
    ensures are { IfOk result (λ made. AllZip (IsTypeDefOf rows.now store.new) numbers.now made.items) }
    ensures grows { OnOk result (StoreGrows store.old store.new) }
{
    let mut made = Vec::new(alloc);
    for number in numbers {
        made.push(type_def(rows, store, owners, *number)?)?;
    }
    Ok(made)
}

// The row of `<Module>`.
fn module_row(store: &mut Store) -> Result<Row, AllocError>
    ensures row { IfOk result (IsModule store.new) }
    ensures grows { OnOk result (StoreGrows store.old store.new) }
{
    let name = store.name(b"<Module>")?;
    let namespace = store.name(b"")?;
    Ok(Row {
        cells: [0, name, namespace, 0, 1, 1, 0, 0, 0],
    })
}

/// The rows of `<Module>` and of the types of the assembly.
pub fn type_defs(alloc: Global, rows: &Rows, store: &mut Store) -> Result<Vec<Row>, AllocError>
    ensures are { IfOk result (λ made. AreTypeDefs rows.now store.new made.items) }
    ensures grows { OnOk result (StoreGrows store.old store.new) }
{
    let layout = &rows.program().layout;
    let owners = owner_rows(alloc, rows, layout.methods.as_slice())?;
    let mut made = Vec::new(alloc);
    made.push(module_row(store)?)?;
    let mut classes = class_rows(alloc, rows, store, &owners, layout.types.as_slice())?;
    made.append(&mut classes)?;
    Ok(made)
}
