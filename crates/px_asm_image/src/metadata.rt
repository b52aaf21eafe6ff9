// Metadata: Partition II, 24.2.
ghost use Rattle.std.specs.Prelude.{IfOk};
ghost use Rattle.px_asm_image.specs.Layout.{Fits, IsMetadataOf};

use crate::content::Content;
use crate::root::write_streams;
use crate::rows::tables_stream;
use std::alloc::{AllocError, Global};

/// The metadata of this content.
pub fn write_metadata(alloc: Global, content: &Content) -> Result<Vec<u8>, AllocError>
    requires { Fits content.now }
    ensures { IfOk result (λ bytes. IsMetadataOf content.now bytes.items) }
{
    let tables = tables_stream(alloc, content.rows.as_slice())?;
    write_streams(
        alloc,
        &tables,
        content.strings.as_slice(),
        content.user_strings.as_slice(),
        content.blob.as_slice(),
    )
}
