// Programs that run whole.
ghost use Rattle.std.specs.Prelude.{◌≡◌, ◌↔◌, IsTrue};
ghost use Rattle.px_asm_law_relink.specs.Linked.{RunsWhole, is_run};
ghost use Rattle.px_asm.specs.Whole.{are_all_run, is_all_run};

use px_program::{Code, Instr, Method, Program};

// Whether an instruction is run.
fn is_run(code: &Code) -> bool
    ensures { result ≡ is_run code.now }
{
    !matches!(code, Code::Outside(..))
}

// Whether all of some instructions are.
fn is_all_run(code: &[Instr]) -> bool
    ensures { result ≡ is_all_run code.now }
{
    code.iter().all(|instr| is_run(&instr.code))
}

// Whether all instructions of some methods are.
fn are_all_run(methods: &[Method]) -> bool
    ensures { result ≡ are_all_run methods.now }
{
    methods
        .iter()
        .all(|method| is_all_run(method.code.as_slice()))
}

/// Whether none of a program's instructions is Outside.
#[tactic(auto, using(crate::proofs::Running::all_run))]
pub fn runs_whole(program: &Program) -> bool
    ensures { IsTrue result ↔ RunsWhole program.now }
{
    are_all_run(program.methods.as_slice())
}
