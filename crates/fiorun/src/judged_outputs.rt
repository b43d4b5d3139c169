// What is told of a judgement after a cut beside its report: the list of bad blocks, the JSON and the page.
use jr_after_json::{Judgement, chunk_blocks, fault_chunks, judgement_text};
use jr_after_page::judgement_page;
use jr_cli_after::After;
use jr_cli_notes::{Beginning, Surroundings};
use jr_cli_outputs::{Content, Outputs};
use jr_cli_words::{BlockSize, LOGIC, RELEASE};
use jr_model::{Memory, Piece};
use jr_plan::Plan;
use jr_report_maps::blocks_text;
use jr_system::{Outlet, Stop};
use std::alloc::Global;
use std::time::Clock;

// What is found in a plan's files, and what is known of the judgement beside that.
#[derive(Clone, Copy)]
pub struct JudgedFiles<'a> {
    pub plan: &'a Plan,
    pub after: &'a After,
    // How many reads of the files the system's cache may have answered.
    pub cached: u64,
    // When it began.
    pub begun: &'a Beginning,
    // The text of the job.
    pub job: &'a [u8],
}

// What makes the texts of a judgement's outputs.
#[derive(Clone, Copy)]
struct JudgedTexts<'a, R> {
    rt: &'a R,
    judged: &'a JudgedFiles<'a>,
}

impl<'a, R: Outlet + Clock> JudgedTexts<'a, R> {
    fn text(&self, content: &Content) -> Result<Vec<u8>, Memory> {
        text_of(self.rt, content, self.judged)
    }
}

// Writes what is asked for of a judgement that has its report. What can't be written keeps no other from it, and the first that can't is
// answered.
pub fn write_judged<'a, R: Outlet + Clock>(
    rt: &'a R,
    outputs: &Outputs,
    judged: &'a JudgedFiles<'a>,
) -> Result<(), Stop> {
    let texts = JudgedTexts { rt, judged };
    outputs.write_texts(rt, move |content| texts.text(content))
}

// What an output says of it. A run alone has the others.
fn text_of<R: Outlet + Clock>(
    rt: &R,
    content: &Content,
    judged: &JudgedFiles<'_>,
) -> Result<Vec<u8>, Memory> {
    let alloc = rt.alloc();
    let (plan, after) = (judged.plan, judged.after);
    match content {
        Content::BadBlocks(size) => {
            list_text(alloc, plan, fault_chunks(alloc, after.found())?, size)
        }
        Content::WrongBlocks(size) => list_text(alloc, plan, wrong_chunks(alloc, after)?, size),
        Content::Json => json_text(alloc, plan, after, judged.cached),
        Content::Page => page_text(rt, judged),
        Content::Trace | Content::Ledger => Ok(Vec::new(alloc)),
    }
}

// The list of the blocks of the plan's only file that these chunks have bytes in.
fn list_text(
    alloc: Global,
    plan: &Plan,
    chunks: Vec<Piece>,
    size: &BlockSize,
) -> Result<Vec<u8>, Memory> {
    let blocks = chunk_blocks(alloc, plan, chunks.as_slice(), 0, size.bytes())?;
    blocks_text(alloc, blocks.as_slice())
}

// The chunks that are lost or broken, and those that couldn't be read.
fn wrong_chunks(alloc: Global, after: &After) -> Result<Vec<Piece>, Memory> {
    let mut chunks = fault_chunks(alloc, after.found())?;
    chunks.extend_from_slice(after.unread(alloc)?.as_slice())?;
    Ok(chunks)
}

fn json_text(alloc: Global, plan: &Plan, after: &After, cached: u64) -> Result<Vec<u8>, Memory> {
    let unread = after.unread(alloc)?;
    let judgement = Judgement {
        version: RELEASE,
        logic: LOGIC,
        cached,
        status: after.status(),
    };
    judgement_text(alloc, plan, after.found(), unread.as_slice(), &judgement)
}

fn page_text<R: Outlet + Clock>(rt: &R, judged: &JudgedFiles<'_>) -> Result<Vec<u8>, Memory> {
    let alloc = rt.alloc();
    let about = Surroundings::of(rt, judged.plan, judged.begun, judged.job)?;
    let unread = judged.after.unread(alloc)?;
    judgement_page(
        alloc,
        judged.plan,
        judged.after.found(),
        unread.as_slice(),
        &about.setting,
        about.files.as_slice(),
    )
}
