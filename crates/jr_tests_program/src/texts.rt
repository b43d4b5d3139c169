use crate::asserts::same;
use jr_cli::CliFault;
use jr_crew::RunFault;
use jr_options::JobFault;
use jr_stats::TraceFault;
use jr_text::TextFault;
use std::process::Abort;
use std::test::Fail;

// Does the fault say this, and end the program so?
pub(crate) fn assert_said(
    rt: &(impl AllocGlobal + Abort),
    fault: CliFault,
    status: u8,
    text: &str,
) -> Result<(), Fail> {
    let said = format!(in rt.alloc(); "{fault}")?;
    same(rt, (said.as_str(), fault.status()), (text, status));
    Ok(())
}

const WANT: &str = "out of memory";

#[test]
fn wants_have_their_text_and_status(rt: HostRuntime) -> Result<(), Fail> {
    assert_said(&rt, CliFault::Text(TextFault::Memory), 3, WANT)?;
    assert_said(&rt, CliFault::Job(JobFault::Memory), 3, WANT)?;
    assert_said(&rt, CliFault::Run(RunFault::Memory), 3, WANT)?;
    assert_said(&rt, CliFault::Trace(TraceFault::Memory), 3, WANT)?;
    assert_said(&rt, CliFault::Memory, 3, WANT)?;
    let thread = CliFault::Run(RunFault::Thread);
    assert_said(&rt, thread, 3, "cannot start a thread")
}
