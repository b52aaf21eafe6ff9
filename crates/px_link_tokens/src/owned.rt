// Members that some type has.
ghost use Rattle.std.specs.Prelude.{◌≡◌, ◌≢◌};
ghost use Rattle.px_meta.specs.Rows.{IsRow, type_defs};
ghost use Rattle.px_link_tokens.specs.Operands.{is_owned, is_void, read_form};
ghost use Rattle.std.specs.Prelude.{Some, true};

use px_link_types::{is_class, key_of};
use px_meta::Meta;
use px_sig::{SigLeaf, SigType};

/// Whether some type has a member, which is a class where that is asked.
pub fn is_owned(meta: &Meta, class: bool, owner: u32) -> bool
    requires { owner ≢ 0 → IsRow meta.now type_defs owner }
    ensures owned { result ≡ is_owned meta.now class owner }
    ensures there { result ≡ true → IsRow meta.now type_defs owner }
{
    owner != 0 && (!class || is_class(meta.tables(), owner))
}

/// Whether a type is of a form that is run.
pub fn is_form(meta: &Meta, item: SigType) -> bool
    ensures { result ≡ read_form meta.now (Some item) }
{
    key_of(meta, item).is_some()
}

/// Whether a signature returns nothing.
pub fn is_void(item: SigType) -> bool
    ensures { result ≡ is_void item }
{
    item.depth == 0 && matches!(item.leaf, SigLeaf::Void)
}
