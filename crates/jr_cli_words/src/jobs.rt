ghost use Rattle.std.specs.Prelude.{◌≡◌, ◌⊎◌, IfErr, OnOk};
ghost use Rattle.std.specs.Io.KnownBytes.{Appends};
ghost use Rattle.jr_plan.specs.PlanText.{plan_text};

use crate::faults::CliFault;
use jr_options::{Plan, plan_text};
use std::alloc::Global;
use std::io;
use std::io::{BufWriter, Printer, Write};

/// Prints what a run of the plan would do, a line for each clone.
pub fn print_plan<V: Write>(alloc: Global, plan: &Plan, out: &mut V) -> Result<(), CliFault>
    ensures printed { OnOk result (Appends (V.contents out.old) (V.contents out.new) (plan_text plan.now)) }
    ensures failed { IfErr result (λ fault. (fault ≡ CliFault.Write) ⊎ (fault ≡ CliFault.Memory)) }
{
    let text = plan_text(alloc, plan)?;
    write_out(text.as_slice(), out)
}

/// Writes a whole text, and everything that the writer still has of what came before.
pub fn write_out<V: Write>(text: &[u8], out: &mut V) -> Result<(), CliFault>
    ensures written { OnOk result (Appends (V.contents out.old) (V.contents out.new) text.now) }
    ensures failed { IfErr result (λ fault. fault ≡ CliFault.Write) }
{
    if out.write_all(text).is_err() || out.flush().is_err() {
        return Err(CliFault::Write);
    }
    Ok(())
}

/// Where reports and what else standard output gets goes.
pub fn to_output<P: Print + AllocGlobal>(rt: &P) -> Result<BufWriter<Printer<'_, P>>, CliFault> {
    match BufWriter::new(rt.alloc(), io::writer(rt)) {
        Ok(out) => Ok(out),
        Err(_) => Err(CliFault::Memory),
    }
}
