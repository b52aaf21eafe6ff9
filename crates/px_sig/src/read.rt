// Reads whole signatures.
ghost use Rattle.std.specs.Prelude.{◌≡◌, ◌==◌, ◌^◌, ◌<◌, length, if◌then◌else◌, Ok};
ghost use Rattle.px_sig.specs.Reading.{Gives};
ghost use Rattle.px_sig.specs.Grammar.{field_sig, locals_sig, method_sig, type_sig};
ghost use Rattle.px_sig.specs.Parts.{Passes, end_at};

use crate::cursor::Cursor;
use crate::fault::SigFault;
use crate::sig::{MethodSig, SigType};
use sqlite_items::Items;
use std::alloc::Global;

/// The signature of a method. `Bad` comes exactly where the blob is none, at the place of the first fault.
pub fn read_method_sig(alloc: Global, blob: &[u8]) -> Result<MethodSig, SigFault>
    requires { length blob.now < 2 ^ 31 }
    ensures { Gives result (method_sig blob.now) }
{
    let mut cursor = Cursor::new(blob);
    let method = cursor.method(alloc)?;
    cursor.end()?;
    Ok(method)
}

/// The type in the signature of a field. `Bad` comes exactly where the blob is none, at the place of the first fault.
pub fn read_field_sig(alloc: Global, blob: &[u8]) -> Result<SigType, SigFault>
    requires { length blob.now < 2 ^ 31 }
    ensures { Gives result (field_sig blob.now) }
{
    let mut cursor = Cursor::new(blob);
    cursor.expect(0x06)?;
    let field = cursor.sig_type(alloc)?;
    cursor.end()?;
    Ok(field)
}

/// The types in the signature of a method's locals. `Bad` comes exactly where the blob is none, at the place of the first fault.
pub fn read_locals_sig(alloc: Global, blob: &[u8]) -> Result<Items<SigType>, SigFault>
    requires { length blob.now < 2 ^ 31 }
    ensures { Gives result (locals_sig blob.now) }
{
    let mut cursor = Cursor::new(blob);
    cursor.expect(0x07)?;
    let count = cursor.number()?;
    let locals = cursor.types(alloc, count)?;
    cursor.end()?;
    Ok(locals)
}

/// The type that a blob is. `Bad` comes exactly where it is none, at the place of the first fault.
pub fn read_type_sig(alloc: Global, blob: &[u8]) -> Result<SigType, SigFault>
    requires { length blob.now < 2 ^ 31 }
    ensures { Gives result (type_sig blob.now) }
{
    let mut cursor = Cursor::new(blob);
    let named = cursor.sig_type(alloc)?;
    cursor.end()?;
    Ok(named)
}
