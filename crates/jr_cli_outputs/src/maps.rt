// Maps on the screen: what happened where in the files of a run.
use jr_cli_ends::Findings;
use jr_cli_words::CliFault;
use jr_escape::Escaped;
use jr_model::LARGEST_END;
use jr_plan::FileSpec;
use jr_report_maps::{FileMap, FileMarks, map_of, marks_of};
use jr_system::signs_of;
use std::alloc::AllocError;

// A row of a map has so many cells, and a map so many rows.
const COLUMNS: u32 = 64;

const ROWS: u32 = 16;

// Shows on standard error what happened where in the files of a run.
pub fn show_maps<R: Eprint + AllocGlobal>(rt: &R, findings: &Findings<'_>) -> Result<(), CliFault> {
    let marks = marks_of(rt.alloc(), findings.plan(), findings.history())?;
    for (index, file) in findings.plan().files().iter().enumerate() {
        show_map(rt, &marks, index as u32, file)?;
    }
    let _ = eprintln!(rt;
        "fiorun: B bad, F fault, v void, u unchecked, s skipped, g good, r read, . untouched"
    );
    Ok(())
}

fn show_map<R: Eprint + AllocGlobal>(
    rt: &R,
    marks: &FileMarks,
    index: u32,
    file: &FileSpec,
) -> Result<(), CliFault> {
    // (no region of a plan ends behind that)
    let end = file.high().min(LARGEST_END);
    let map = map_of(rt.alloc(), marks, index, end, COLUMNS * ROWS)?;
    let name = file.name();
    let name = Escaped(&name);
    let _ = eprintln!(rt; "fiorun: map of {name}, {} bytes a sign:", map.size);
    show_rows(rt, &map)?;
    Ok(())
}

fn show_rows<R: Eprint + AllocGlobal>(rt: &R, map: &FileMap) -> Result<(), AllocError> {
    for row in map.fates.as_slice().chunks(COLUMNS as usize) {
        let signs = signs_of(rt.alloc(), row)?;
        let _ = eprintln!(rt; "{signs}");
    }
    Ok(())
}
