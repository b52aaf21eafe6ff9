// The tables, heaps and bodies of a written program: Partition II, 22.
ghost use Rattle.std.specs.Prelude.{◌≡◌, ◌≤◌, ◌<◌, IfOk, OnOk, length};
ghost use Rattle.std.specs.List.{AllByRecursion};
ghost use Rattle.px_asm_described.specs.Writable.{IsText, IsWritable};
ghost use Rattle.px_asm.specs.Made.{AreListed, AreMade};
ghost use Rattle.px_asm_law_written.specs.Store.{StoreGrows};
ghost use Rattle.px_asm_rows.specs.Tables.{IsPut};
ghost use Rattle.px_asm_law_written.specs.Written.{IsWritten};

use crate::methods::{addresses_of, locals_rows, method_rows};
use px_asm_image::Content;
use px_asm_rows::{field_defs, impl_rows, spec_rows, type_defs, type_refs};
use px_asm_store::{Rows, Store};
use px_program::Program;
use px_tables::Row;
use sqlite_items::Items;
use std::alloc::{AllocError, Global};
use std::mem::replace;

// The algorithm of an assembly's hashes: Partition II, 23.1.1.
const SHA1: u32 = 0x8004;

/// What the metadata of a written program holds, and its bodies.
#[derive(Drop)]
pub struct Written {
    pub content: Content,
    pub bodies: Vec<u8>,
}

/// The rows of the tables, but for MemberRef: Partition II, 22.
#[derive(Drop)]
pub struct Made {
    pub module: Items<Row>,
    pub type_refs: Items<Row>,
    pub type_defs: Items<Row>,
    pub fields: Items<Row>,
    pub methods: Items<Row>,
    pub locals: Items<Row>,
    pub impls: Items<Row>,
    pub specs: Items<Row>,
    pub assembly: Items<Row>,
    pub assembly_refs: Items<Row>,
}

// A row with a name in the column of a number, and a number in the first one.
fn named_row(store: &mut Store, first: u32, column: usize, text: &[u8]) -> Result<Row, AllocError>
    requires column { column < 9 }
    requires text { IsText text.now }
    ensures { OnOk result (StoreGrows store.old store.new) }
{
    let mut cells = [first, 0, 0, 0, 0, 0, 0, 0, 0];
    cells[column] = store.name(text)?;
    Ok(Row { cells })
}

// The row of Module: Partition II, 22.30.
fn module(alloc: Global, store: &mut Store) -> Result<Vec<Row>, AllocError>
    ensures { OnOk result (StoreGrows store.old store.new) }
{
    let mut made = Vec::new(alloc);
    made.push(named_row(store, 0, 1, b"program.dll")?)?;
    Ok(made)
}

// The row of Assembly: Partition II, 22.2. Its version is 1.0.0.0, and its hashes are of the kind that the standard names first.
fn assembly(alloc: Global, store: &mut Store) -> Result<Vec<Row>, AllocError>
    ensures { OnOk result (StoreGrows store.old store.new) }
{
    let name = store.name(b"program")?;
    let mut made = Vec::new(alloc);
    made.push(Row {
        cells: [SHA1, 1, 0, 0, 0, 0, 0, name, 0],
    })?;
    Ok(made)
}

// The rows of AssemblyRef: Partition II, 22.5. The library comes first, and then the assembly of the checkers.
fn assembly_refs(alloc: Global, store: &mut Store) -> Result<Vec<Row>, AllocError>
    ensures { OnOk result (StoreGrows store.old store.new) }
{
    let mut made = Vec::new(alloc);
    made.push(named_row(store, 4, 6, b"mscorlib")?)?;
    made.push(named_row(store, 4, 6, b"Microsoft.Pex.Framework")?)?;
    Ok(made)
}

// The rows of all tables but MemberRef, by the addresses of the methods' bodies.
fn made_with(
    alloc: Global,
    rows: &Rows,
    store: &mut Store,
    numbers: &[u32],
    addresses: &[u32],
) -> Result<Made, AllocError>
    requires numbers { numbers.now ≡ rows.now.layout.methods }
    requires there { AllByRecursion (λ number. number < length rows.now.methods) numbers.now }
    requires count { length numbers.now ≡ length addresses.now }
    ensures made { IfOk result (AreMade rows.now store.new addresses.now) }
    ensures grows { OnOk result (StoreGrows store.old store.new) }
{
    let module = module(alloc, store)?;
    let type_refs = type_refs(alloc, store)?;
    let type_defs = type_defs(alloc, rows, store)?;
    let fields = field_defs(alloc, rows, store)?;
    let methods = method_rows(alloc, rows, store, numbers, addresses)?;
    let locals = locals_rows(alloc, rows, store, numbers)?;
    let impls = impl_rows(alloc, rows, numbers)?;
    let specs = spec_rows(alloc, rows, store)?;
    let assembly = assembly(alloc, store)?;
    let assembly_refs = assembly_refs(alloc, store)?;
    Ok(Made {
        module: Items::from_vec(module),
        type_refs: Items::from_vec(type_refs),
        type_defs: Items::from_vec(type_defs),
        fields: Items::from_vec(fields),
        methods: Items::from_vec(methods),
        locals: Items::from_vec(locals),
        impls: Items::from_vec(impls),
        specs: Items::from_vec(specs),
        assembly: Items::from_vec(assembly),
        assembly_refs: Items::from_vec(assembly_refs),
    })
}

// Puts the rows of a table behind those of the tables before it. A table between them has no rows.
fn put(
    alloc: Global,
    tables: &mut Items<Items<Row>>,
    table: usize,
    made: Items<Row>,
) -> Result<(), AllocError>
    requires { length tables.old ≤ table }
    ensures { OnOk result (IsPut tables.old tables.new table made) }
{
    while tables.len() < table {
        tables.push(Items::new(alloc))?;
    }
    tables.push(made)?;
    Ok(())
}

// All tables, by their numbers.
fn listed(
    alloc: Global,
    made: Made,
    references: Items<Row>,
) -> Result<Items<Items<Row>>, AllocError>
    ensures { IfOk result (AreListed made references) }
{
    let mut tables = Items::new(alloc);
    put(alloc, &mut tables, 0x00, made.module)?;
    put(alloc, &mut tables, 0x01, made.type_refs)?;
    put(alloc, &mut tables, 0x02, made.type_defs)?;
    put(alloc, &mut tables, 0x04, made.fields)?;
    put(alloc, &mut tables, 0x06, made.methods)?;
    put(alloc, &mut tables, 0x0A, references)?;
    put(alloc, &mut tables, 0x11, made.locals)?;
    put(alloc, &mut tables, 0x19, made.impls)?;
    put(alloc, &mut tables, 0x1B, made.specs)?;
    put(alloc, &mut tables, 0x20, made.assembly)?;
    put(alloc, &mut tables, 0x23, made.assembly_refs)?;
    Ok(tables)
}

/// The tables, heaps and bodies of a program.
pub fn tables_of(alloc: Global, program: &Program) -> Result<Written, AllocError>
    requires { IsWritable program.now }
    ensures { IfOk result (λ written. IsWritten program.now written.content written.bodies.items) }
{
    let rows = Rows::new(alloc, program)?;
    let mut store = Store::new(alloc)?;
    let mut bodies = Vec::new(alloc);
    let numbers = program.layout.methods.as_slice();
    let addresses = addresses_of(alloc, &rows, &mut store, &mut bodies, numbers)?;
    // All references are there now: names and signatures are added to the heaps alone.
    let references = replace(&mut store.references, Vec::new(alloc));
    let made = made_with(alloc, &rows, &mut store, numbers, &addresses)?;
    let tables = listed(alloc, made, Items::from_vec(references))?;
    let content = Content {
        rows: tables,
        strings: Items::from_vec(replace(&mut store.strings, Vec::new(alloc))),
        user_strings: Items::from_vec(replace(&mut store.texts, Vec::new(alloc))),
        blob: Items::from_vec(replace(&mut store.blob, Vec::new(alloc))),
    };
    Ok(Written { content, bodies })
}
