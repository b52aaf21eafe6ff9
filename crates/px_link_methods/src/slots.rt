// Arguments, locals and returns of forms that aren't run.
ghost use Rattle.std.specs.Prelude.{◌≡◌, ◌++◌, IfOk, OnOk, map, slice_get};
ghost use Rattle.px_link_methods.specs.Slots.{forms_of, is_barred, is_other, is_set, moves_other};

use px_link_tokens::is_void;
use px_link_types::key_of;
use px_meta::Meta;
use px_program::{Code, Move};
use px_sig::{MethodSig, SigType};
use std::alloc::{AllocError, Global};
use std::marker::Model;

/// For each argument and local of a method whether it is of a form that isn't run, and whether the return is.
#[derive(Drop)]
pub struct SlotForms {
    args: Vec<bool>,
    locals: Vec<bool>,
    ret: bool,
}

impl Model for SlotForms {
    ghost use Rattle.px_link_methods.specs.Slots.{Forms};

    ghost Value = { Forms };

    ghost view = { λ f. record { args = f.args.items; locals = f.locals.items; ret = f.ret } };
}

fn is_other(meta: &Meta, item: SigType) -> bool
    ensures { result ≡ is_other meta.now item }
{
    key_of(meta, item).is_none()
}

// Adds for each of some types whether it is of a form that isn't run.
fn push_forms(forms: &mut Vec<bool>, meta: &Meta, items: &[SigType]) -> Result<(), AllocError>
    ensures { OnOk result (forms.new.items ≡ forms.old.items ++ map (is_other meta.now) items.now) }
{
    for item in items {
        forms.push(is_other(meta, *item))?;
    }
    Ok(())
}

// Whether a slot of this number is of a form that isn't run.
fn is_set(forms: &[bool], number: u32) -> bool
    ensures { result ≡ is_set (slice_get forms.now number) }
{
    match forms.get(number as usize) {
        Some(flag) => *flag,
        None => false,
    }
}

impl SlotForms {
    /// The forms of a method's arguments, locals and return.
    pub fn new(
        alloc: Global,
        meta: &Meta,
        sig: &MethodSig,
        locals: &[SigType],
    ) -> Result<SlotForms, AllocError>
        ensures { IfOk result (λ forms. forms ≡ forms_of meta.now sig.now locals.now) }
    {
        let mut args = Vec::new(alloc);
        if sig.has_this {
            args.push(false)?;
        }
        push_forms(&mut args, meta, sig.params.as_slice())?;
        let mut others = Vec::new(alloc);
        push_forms(&mut others, meta, locals)?;
        let ret = is_other(meta, sig.ret) && !is_void(sig.ret);
        Ok(SlotForms {
            args,
            locals: others,
            ret,
        })
    }

    // Whether a move reads or writes a slot of such a form.
    fn moves_other(&self, step: &Move) -> bool
        ensures { result ≡ moves_other self.now step.now }
    {
        match step {
            Move::Argument(number) | Move::SetArgument(number) => is_set(&self.args, *number),
            Move::Local(number) | Move::SetLocal(number) => is_set(&self.locals, *number),
            _ => false,
        }
    }

    /// Whether an instruction can't be run for the form of a slot or of the return.
    pub fn bars(&self, code: &Code) -> bool
        ensures { result ≡ is_barred self.now code.now }
    {
        match code {
            Code::Move(step) => self.moves_other(step),
            Code::Return => self.ret,
            _ => false,
        }
    }
}
