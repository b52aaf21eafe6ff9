// The rows of MethodDef and of StandAloneSig, and the bodies: Partition II, 22.26 and 22.36.
ghost use Rattle.std.specs.Prelude.{◌≡◌, ◌<◌, ◌++◌, ◌%◌, ◌^◌, Some, IfOk, OnOk, codes, length, slice_get};
ghost use Rattle.std.specs.List.{AllByRecursion, AllZip};
ghost use Rattle.px_asm_heaps.specs.Heaps.{Grows};
ghost use Rattle.px_program.specs.declared.program.TypeInfo.{TypeInfo};
ghost use Rattle.px_asm_described.specs.Writable.{HasOwner, IsText};
ghost use Rattle.px_tables.specs.Counts.{has_bit};
ghost use Rattle.px_asm_law_written.specs.Holds.{IsLocals};
ghost use Rattle.px_asm_law_written.specs.Store.{AreReferences, StoreGrows};
ghost use Rattle.px_asm_rows.specs.Tables.{AreMethodRows, HasAddress, IsMethodRow, bits_where};

use px_asm_store::{Rows, Store, sig_of, types_of};
use px_asm_tokens::push_body;
use px_program::{Method, Program};
use px_tables::Row;
use std::alloc::{AllocError, Global};

// A method that others see: Partition II, 23.1.10.
const PUBLIC: u32 = 0x0006;

const STATIC: u32 = 0x0010;

// A virtual method that takes a slot of its own.
const VIRTUAL: u32 = 0x0140;

// A method whose name is special, as that of a constructor.
const SPECIAL: u32 = 0x1800;

/// The addresses of the bodies of methods. The bodies are added to those that are written.
pub fn addresses_of(
    alloc: Global,
    rows: &Rows,
    store: &mut Store,
    bodies: &mut Vec<u8>,
    numbers: &[u32],
) -> Result<Vec<u32>, AllocError>
    requires there { AllByRecursion (λ number. number < length rows.now.methods) numbers.now }
    requires before { AreReferences rows.now store.old }
    ensures are { IfOk result (λ addresses. AllZip (HasAddress rows.now store.new bodies.new.items) numbers.now addresses.items) }
    ensures kept { OnOk result (AreReferences rows.now store.new) }
{
    let mut addresses = Vec::new(alloc);
    for number in numbers {
        addresses.push(push_body(alloc, rows, store, bodies, *number)?)?;
    }
    Ok(addresses)
}

// Some bits, or none.
fn bits_where(on: bool, bits: u32) -> u32
    ensures { result ≡ bits_where on bits }
{
    if on { bits } else { 0 }
}

// The flags of a method.
fn method_flags(is_static: bool, is_virtual: bool, is_special: bool) -> u32
    ensures no_instance { has_bit (result % 2 ^ 16) 4 ≡ is_static }
    ensures slot { has_bit (result % 2 ^ 16) 6 ≡ is_virtual }
    ensures new_slot { has_bit (result % 2 ^ 16) 8 ≡ is_virtual }
{
    PUBLIC
        + bits_where(is_static, STATIC)
        + bits_where(is_virtual, VIRTUAL)
        + bits_where(is_special, SPECIAL)
}

// A method's own name: that behind its owner's.
fn own_name<'p>(program: &'p Program, method: &'p Method) -> &'p [u8]
    requires { HasOwner program.now method.now }
    ensures text { IsText result.now }
    ensures name { (owner : TypeInfo) → slice_get program.now.types method.now.owner ≡ Some owner → method.now.name ≡ owner.name ++ codes "::" ++ result.now }
{
    let owner = &program.types.as_slice()[method.owner as usize];
    &method.name.as_slice()[owner.name.len() + 2..]
}

// The row of a method, by the address of its body.
fn method_row(
    alloc: Global,
    rows: &Rows,
    store: &mut Store,
    number: u32,
    address: u32,
) -> Result<Row, AllocError>
    requires { number < length rows.now.methods }
    ensures row { IfOk result (IsMethodRow rows.now store.new number address) }
    ensures grows { OnOk result (StoreGrows store.old store.new) }
{
    let program = rows.program();
    let method = &program.methods.as_slice()[number as usize];
    let slot = program.layout.slots.as_slice()[number as usize];
    let own = own_name(program, method);
    let flags = method_flags(
        method.is_static,
        slot.is_virtual,
        own.first() == Some(&b'.'),
    );
    let name = store.name(own)?;
    let sig = sig_of(alloc, rows, number)?;
    let sig = store.method_sig(&sig)?;
    Ok(Row {
        cells: [address, 0, flags, name, sig, 1, 0, 0, 0],
    })
}

/// The rows of methods, by the addresses of their bodies.
pub fn method_rows(
    alloc: Global,
    rows: &Rows,
    store: &mut Store,
    numbers: &[u32],
    addresses: &[u32],
) -> Result<Vec<Row>, AllocError>
    requires there { AllByRecursion (λ number. number < length rows.now.methods) numbers.now }
    requires count { length numbers.now ≡ length addresses.now }
    ensures are { IfOk result (λ made. AreMethodRows rows.now store.new numbers.now addresses.now made.items) }
    ensures grows { OnOk result (StoreGrows store.old store.new) }
{
    let mut made = Vec::new(alloc);
    for (at, number) in numbers.iter().enumerate() {
        made.push(method_row(alloc, rows, store, *number, addresses[at])?)?;
    }
    Ok(made)
}

// The row of the signature of a method's locals.
fn locals_row(alloc: Global, rows: &Rows, store: &mut Store, number: u32) -> Result<Row, AllocError>
    requires { number < length rows.now.methods }
    ensures row { IfOk result (IsLocals rows.now store.new number) }
    ensures grows { OnOk result (StoreGrows store.old store.new) }
{
    let method = &rows.program().methods.as_slice()[number as usize];
    let types = types_of(alloc, rows, method.locals.as_slice())?;
    let sig = store.locals_sig(types.as_slice())?;
    Ok(Row {
        cells: [sig, 0, 0, 0, 0, 0, 0, 0, 0],
    })
}

/// The rows of the signatures of locals, one for each method.
pub fn locals_rows(
    alloc: Global,
    rows: &Rows,
    store: &mut Store,
    numbers: &[u32],
) -> Result<Vec<Row>, AllocError>
    requires { AllByRecursion (λ number. number < length rows.now.methods) numbers.now }
    ensures are { IfOk result (λ made. AllZip (IsLocals rows.now store.new) numbers.now made.items) }
    ensures grows { OnOk result (StoreGrows store.old store.new) }
{
    let mut made = Vec::new(alloc);
    for number in numbers {
        made.push(locals_row(alloc, rows, store, *number)?)?;
    }
    Ok(made)
}
