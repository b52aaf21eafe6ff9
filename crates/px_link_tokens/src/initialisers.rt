// Type initialisers: Partition II, 10.5.3.
ghost use Rattle.std.specs.Prelude.{◌≡◌, ◌≢◌, ◌-◌, ◌≤◌, ◌<◌, ℕ, length, slice_index_or, true, false, IfOk};
ghost use Rattle.px_link_tokens.specs.Parts.{AreInitialised};

use px_meta::Meta;
use std::alloc::{AllocError, Global};

// Sets the flag of a type, where there is such a type.
fn set_flag(flags: &mut [bool], row: usize)
    ensures named { 1 ≤ row → row ≤ length flags.old → slice_index_or flags.new (row - 1) false ≡ true }
    ensures others { (other : ℕ) → 1 ≤ other → other ≢ row → slice_index_or flags.new (other - 1) false ≡ slice_index_or flags.old (other - 1) false }
{
    if 1 <= row && row <= flags.len() {
        flags[row - 1] = true;
    }
}

/// For each type, whether it has an initialiser. Each method is looked at once.
pub fn initialised(alloc: Global, meta: &Meta) -> Result<Vec<bool>, AllocError>
    ensures { IfOk result (λ flags. AreInitialised meta.now flags.items) }
{
    let mut flags = vec![in alloc; false; meta.types().len()]?;
    for method in meta.methods() {
        if method.name == ".cctor" {
            set_flag(&mut flags, method.owner as usize);
        }
    }
    Ok(flags)
}
