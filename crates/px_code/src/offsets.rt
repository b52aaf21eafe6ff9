// The offsets at which instructions start.
ghost use Rattle.std.specs.Prelude.{◌≡◌, ◌<◌, ◌^◌, Contains, IfSome, IsTrue};
ghost use Rattle.std.specs.Option.{option_copied};
ghost use Rattle.px_code.specs.Body.{end_of, first_bad, is_range, is_start, leads_well, Follow};

use crate::body::RawInstr;

// Whether an instruction starts at the offset.
fn is_start(instrs: &[RawInstr], at: u32) -> bool
    requires { Follow 0 instrs.now }
    ensures { result ≡ is_start instrs.now at }
{
    instrs
        .binary_search_by_key(&at, |instr| instr.offset)
        .is_ok()
}

// Whether each target of the instruction is the start of one.
fn leads_well(instrs: &[RawInstr], instr: &RawInstr) -> bool
    requires { Follow 0 instrs.now }
    ensures { result ≡ leads_well instrs.now instr.now }
{
    let targets = instr.targets.as_slice();
    targets.iter().all(|target| is_start(instrs, *target))
}

/// The first instruction with a target at which none starts.
pub fn first_bad(instrs: &[RawInstr]) -> Option<&RawInstr>
    requires { Follow 0 instrs.now }
    ensures first { option_copied result ≡ first_bad instrs.now }
    ensures found { IfSome result (λ instr. Contains instrs.now instr.now) }
{
    instrs.iter().find(|instr| !leads_well(instrs, instr))
}

// The offset behind the last instruction.
fn end_of(instrs: &[RawInstr]) -> u32
    ensures { result ≡ end_of instrs.now }
{
    match instrs.last() {
        None => 0,
        Some(instr) => instr.next,
    }
}

/// Whether the range isn't empty, begins at an instruction, and ends at one or with the code.
pub fn is_range(instrs: &[RawInstr], from: u64, to: u64) -> bool
    requires { Follow 0 instrs.now }
    ensures exact { result ≡ is_range instrs.now from to }
    ensures near { IsTrue result → to < 2 ^ 32 }
{
    let end = u64::from(end_of(instrs));
    if to <= from || end < to {
        return false;
    }
    is_start(instrs, from as u32) && (is_start(instrs, to as u32) || to == end)
}
