// Signatures in the heap of blobs.
ghost use Rattle.std.specs.Prelude.{◌≡◌, ◌<◌, ◌^◌, length, IfOk, IfErr, IfSome};
ghost use Rattle.std.specs.Option.{option_map};
ghost use Rattle.px_blobs.specs.Items.{blob_at};
ghost use Rattle.px_sig.specs.Reading.{Gives};
ghost use Rattle.px_meta.specs.Members.{field_sig_at, method_sig_at, type_sig_at};
ghost use Rattle.px_meta.specs.declared.fault.MetaFault.TheVariants.{Memory};

use crate::fault::MetaFault;
use px_blobs::blob_at;
use px_shared::Shared;
use px_sig::{MethodSig, SigFault, SigType, read_field_sig, read_method_sig, read_type_sig};
use px_tables::{Heap, Tables};
use std::alloc::Global;

// The blob at a place. Its length has at most 29 bits.
fn blob_in(heap: &[u8], at: u32) -> Option<&[u8]>
    ensures blob { option_map (λ x. x.now) result ≡ blob_at heap.now at }
    ensures short { IfSome result (λ x. length x.now < 2 ^ 31) }
{
    blob_at(heap, at)
}

/// The signature of a method at a place of the blobs, where one that can be read stands there.
pub fn method_sig_of(
    alloc: Global,
    tables: &Tables,
    at: u32,
) -> Result<Option<Shared<MethodSig>>, MetaFault>
    ensures sig { IfOk result (λ sig. sig ≡ method_sig_at tables.now at) }
    ensures memory { IfErr result (λ fault. fault ≡ Memory) }
{
    let Some(blob) = blob_in(tables.heap(Heap::Blob), at) else {
        return Ok(None);
    };
    match read_method_sig(alloc, blob) {
        Ok(sig) => Ok(Some(Shared::new(alloc, sig)?)),
        Err(SigFault::Bad { at: _ }) => Ok(None),
        Err(SigFault::Memory) => Err(MetaFault::Memory),
    }
}

/// The type in the signature of a field.
pub fn field_sig_of(alloc: Global, tables: &Tables, at: u32) -> Result<Option<SigType>, MetaFault>
    ensures sig { IfOk result (λ sig. sig ≡ field_sig_at tables.now at) }
    ensures memory { IfErr result (λ fault. fault ≡ Memory) }
{
    let Some(blob) = blob_in(tables.heap(Heap::Blob), at) else {
        return Ok(None);
    };
    match read_field_sig(alloc, blob) {
        Ok(sig) => Ok(Some(sig)),
        Err(SigFault::Bad { at: _ }) => Ok(None),
        Err(SigFault::Memory) => Err(MetaFault::Memory),
    }
}

/// The type that a blob spells.
pub fn type_sig_of(alloc: Global, tables: &Tables, at: u32) -> Result<Option<SigType>, MetaFault>
    ensures sig { IfOk result (λ sig. sig ≡ type_sig_at tables.now at) }
    ensures memory { IfErr result (λ fault. fault ≡ Memory) }
{
    let Some(blob) = blob_in(tables.heap(Heap::Blob), at) else {
        return Ok(None);
    };
    match read_type_sig(alloc, blob) {
        Ok(sig) => Ok(Some(sig)),
        Err(SigFault::Bad { at: _ }) => Ok(None),
        Err(SigFault::Memory) => Err(MetaFault::Memory),
    }
}
