ghost use Rattle.std.specs.Prelude.{◌≡◌, ◌<◌, ◌+◌, ◌++◌, [], ℕ, length, slice_index_or, IfOk, OnOk};
ghost use Rattle.std.specs.Option.{option_map, option_to_list};
ghost use Rattle.jr_report_maps.specs.declared.files.ByteMarks.{ByteMarks as Listed};
ghost use Rattle.jr_report_maps.specs.Marked.{AreMarksIn, AreMarksOf, on_file, saids_of};
ghost use Rattle.jr_report_maps.specs.Spans.{said_by};

use crate::marks::{Mark, mark_of};
use crate::told::Lookups;
use jr_model::{Event, Memory};
use jr_plan::Plan;
use std::alloc::Global;

/// What a history says of the bytes of each file of a plan: it is gone through once, for the maps of all files.
#[derive(Drop)]
pub struct FileMarks {
    pub(crate) files: Vec<ByteMarks>,
}

// What is said of a file's bytes, in the order of the history.
#[derive(Drop)]
pub(crate) struct ByteMarks {
    pub items: Vec<Mark>,
}

/// What a history of this plan says of the bytes of its files.
pub fn marks_of(alloc: Global, plan: &Plan, history: &[Event]) -> Result<FileMarks, Memory>
    ensures { IfOk result (AreMarksOf plan.now history.now) }
{
    let told = Lookups::new(alloc, history)?;
    let mut files = no_marks(alloc, plan, history)?;
    for event in history {
        let mark = mark_of(&told, plan, event);
        add_mark(&mut files, mark)?;
    }
    Ok(FileMarks { files })
}

// Those of no event, for each file of the plan.
fn no_marks(alloc: Global, plan: &Plan, history: &[Event]) -> Result<Vec<ByteMarks>, Memory>
    ensures { IfOk result (λ files. AreMarksIn plan.now history.now (length plan.now.files) [] files.items) }
{
    let mut files = Vec::new(alloc);
    for _file in plan.files() {
        add_empty(alloc, &mut files)?;
    }
    Ok(files)
}

fn add_empty(alloc: Global, files: &mut Vec<ByteMarks>) -> Result<(), Memory>
    ensures len { OnOk result (length files.new.items ≡ length files.old.items + 1) }
    ensures each { OnOk result ((file : ℕ) (d : Listed) → file < length files.old.items
        → slice_index_or files.new.items file d ≡ slice_index_or files.old.items file d) }
    ensures last { OnOk result ((d : Listed) → saids_of (slice_index_or files.new.items (length files.old.items) d) ≡ []) }
{
    let items = Vec::new(alloc);
    files.push(ByteMarks { items })?;
    Ok(())
}

// Adds what is said to the marks of the file that it is of, where that is one of these.
fn add_mark(files: &mut Vec<ByteMarks>, mark: Option<Mark>) -> Result<(), Memory>
    ensures len { OnOk result (length files.new.items ≡ length files.old.items) }
    ensures each { OnOk result ((file : ℕ) (d : Listed) → file < length files.old.items
        → saids_of (slice_index_or files.new.items file d)
        ≡ saids_of (slice_index_or files.old.items file d) ++ option_to_list (on_file file (option_map said_by mark))) }
{
    let Some(mark) = mark else {
        return Ok(());
    };
    let place = mark.span.file as usize;
    if place < files.len() {
        files[place].items.push(mark)?;
    }
    Ok(())
}
