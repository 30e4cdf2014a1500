//! Links.

ghost use Rattle.std.specs.Prelude.{◌≡◌, ◌+◌, ◌*◌, ◌≤◌, ◌<◌, ◌^◌, length, IfOk};
ghost use Rattle.std.specs.List.{AllByRecursion};
ghost use Rattle.model_gcc.specs.Operands.{IsOperand};
ghost use Rattle.model_gcc.specs.Checks.{max_operands};
ghost use Rattle.model_gcc.specs.Outputs.{program_output};
ghost use Rattle.model_gcc.specs.PlanOf.{nothing_gathered, with_input, with_inputs, linked};

use crate::gcc_plan::{GccPlan, Operand};
use crate::operand_steps::{last_number, next_number, with_steps_of};
use crate::outputs::program_output;
use build_plan::{Plan, Source, Stage, Step, Target, four_digits, known_path};
use object_name::{Bytes, Many, TryCopy};
use std::alloc::{AllocError, Global};
use thunk_codec::Path;

/// What is gathered for the linker.
#[derive(Drop)]
pub(crate) struct Gathering {
    pub(crate) steps: Many<Step>,
    /// The inputs of the linker, by their paths in its job.
    pub(crate) inputs: Many<(Path, Source)>,
    /// These paths.
    pub(crate) args: Many<Bytes>,
}

impl Gathering {
    fn new(alloc: Global) -> Self
        ensures { result ≡ nothing_gathered }
    {
        Gathering {
            steps: Many::new(alloc),
            inputs: Many::new(alloc),
            args: Many::new(alloc),
        }
    }

    /// With one input more.
    fn with_input(
        self,
        alloc: Global,
        plan: &GccPlan,
        target: &Path,
        operand: &Operand,
    ) -> Result<Gathering, AllocError>
        requires few { length self.steps + 3 < 2 ^ 32 }
        requires operand { IsOperand operand.now }
        requires target { target.now ≡ program_output plan.now }
        ensures { IfOk result (λ given. given ≡ with_input plan.now operand.now self) }
    {
        let Gathering {
            steps,
            mut inputs,
            mut args,
        } = self;
        let steps = with_steps_of(alloc, plan, target, steps, operand)?;
        let number = four_digits(args.len());
        args.push(Bytes::from_slice(alloc, &number)?)?;
        let path = known_path(alloc, &number)?;
        inputs.push((path, Source::Made(last_number(&steps))))?;
        Ok(Gathering {
            steps,
            inputs,
            args,
        })
    }

    /// What all operands give.
    fn of(alloc: Global, plan: &GccPlan, target: &Path) -> Result<Gathering, AllocError>
        requires few { length plan.now.operands ≤ max_operands }
        requires operands { AllByRecursion IsOperand plan.now.operands }
        requires target { target.now ≡ program_output plan.now }
        ensures same { IfOk result (λ given. given ≡ with_inputs plan.now plan.now.operands nothing_gathered) }
        ensures few { IfOk result (λ given. length given.steps ≤ 3 * max_operands) }
    {
        let mut given = Gathering::new(alloc);
        let mut rest = plan.operands.as_slice();
        'operands: while let [operand, others @ ..] = rest {
            let more = given.with_input(alloc, plan, target, operand)?;
            given = more;
            rest = others;
        }
        Ok(given)
    }
}

/// The linker over what is gathered.
fn linked(alloc: Global, output: Path, given: Gathering) -> Result<Plan, AllocError>
    requires { length given.steps < 2 ^ 32 }
    ensures { IfOk result (λ plan. plan ≡ linked output given) }
{
    let Gathering {
        mut steps,
        inputs,
        args,
    } = given;
    let step = next_number(&steps);
    let tool = Bytes::from_slice(alloc, b"ld")?;
    let target = output.copy(alloc)?;
    steps.push(Step::Run(Stage {
        tool,
        args,
        inputs,
        optional: None,
        target,
    }))?;
    let mut targets = Many::new(alloc);
    targets.push(Target::Keep { path: output, step })?;
    Ok(Plan { steps, targets })
}

/// The plan of a link.
pub(crate) fn link(alloc: Global, plan: &GccPlan) -> Result<Plan, AllocError>
    requires few { length plan.now.operands ≤ max_operands }
    requires operands { AllByRecursion IsOperand plan.now.operands }
    ensures { IfOk result (λ made. made ≡ linked (program_output plan.now) (with_inputs plan.now plan.now.operands nothing_gathered)) }
{
    let output = program_output(alloc, plan)?;
    let given = Gathering::of(alloc, plan, &output)?;
    linked(alloc, output, given)
}
