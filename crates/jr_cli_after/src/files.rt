ghost use Rattle.std.specs.Prelude.{◌≡◌, ◌+◌, ◌<◌, ◌^◌, ◌++◌, ◌∷◌, [], List, OnOk};
ghost use Rattle.jr_after_report.specs.Counting.{total_of};
ghost use Rattle.jr_after_report.specs.Reports.{state_of};
ghost use Rattle.jr_after_report.specs.declared.lines.Judged.{Judged as JudgedRecord};
ghost use Rattle.jr_cli_after.specs.Found.{Asked, after_state, place_text, unread_line};

use jr_after_report::{FileReport, Judged};
use jr_model::{Memory, Piece, push_field, push_text};
use jr_plan::Plan;
use std::alloc::Global;
use std::marker::Model;

// The chunks of a file that couldn't be read.
#[derive(Drop)]
pub(crate) struct Unread {
    pub(crate) count: u64,
    pub(crate) lines: Vec<u8>,
    pub(crate) chunks: Vec<Piece>,
}

impl Model for Unread {
    ghost use Rattle.jr_cli_after.specs.Found.{UnreadState};

    ghost Value = { UnreadState };

    ghost view = { λ u. record { count = u.count; lines = u.lines.items; chunks = u.chunks.items } };
}

// What of a file is told.
#[derive(Drop)]
pub(crate) struct FileAfter {
    pub(crate) report: FileReport,
    pub(crate) unread: Unread,
}

impl Model for FileAfter {
    ghost use Rattle.jr_cli_after.specs.Found.{FileAfterState};

    ghost Value = { FileAfterState };

    ghost view = { λ f. record { found = f.report; unread = f.unread } };
}

impl Unread {
    fn none(alloc: Global) -> Unread
        ensures { result ≡ record { count = 0; lines = []; chunks = [] } }
    {
        Unread {
            count: 0,
            lines: Vec::new(alloc),
            chunks: Vec::new(alloc),
        }
    }

    // Adds a chunk.
    fn add(&mut self, plan: &Plan, chunk: &Piece) -> Result<(), Memory>
        requires { self.old.count + 1 < 2 ^ 64 }
        ensures count { OnOk result (self.new.count ≡ self.old.count + 1) }
        ensures lines { OnOk result (self.new.lines ≡ self.old.lines ++ unread_line plan.now chunk.now) }
        ensures chunks { OnOk result (self.new.chunks ≡ self.old.chunks ++ chunk.now ∷ []) }
    {
        push_line(&mut self.lines, plan, chunk)?;
        self.chunks.push(*chunk)?;
        self.count += 1;
        Ok(())
    }
}

impl FileAfter {
    // Of no chunks yet.
    pub(crate) fn new(alloc: Global, file: u32) -> FileAfter
        ensures { (asked : Asked) → result ≡ after_state asked file [] }
    {
        FileAfter {
            report: FileReport::new(alloc, file),
            unread: Unread::none(alloc),
        }
    }

    // Adds a chunk that was judged.
    pub(crate) fn add_judged(&mut self, plan: &Plan, one: &Judged) -> Result<(), Memory>
        requires { total_of self.old.found.counts + 1 < 2 ^ 64 }
        ensures value { (file : _) (chunks : List JudgedRecord)
            → self.old.found ≡ state_of plan.now (record { file = file; chunks = chunks })
            → OnOk result (self.new.found ≡ state_of plan.now (record { file = file; chunks = chunks ++ one.now ∷ [] })) }
        ensures total { OnOk result (total_of self.new.found.counts ≡ total_of self.old.found.counts + 1) }
        ensures unread { self.new.unread ≡ self.old.unread }
    {
        self.report.add(plan, one)
    }

    // Adds one that couldn't be read.
    pub(crate) fn add_unread(&mut self, plan: &Plan, chunk: &Piece) -> Result<(), Memory>
        requires { self.old.unread.count + 1 < 2 ^ 64 }
        ensures found { self.new.found ≡ self.old.found }
        ensures count { OnOk result (self.new.unread.count ≡ self.old.unread.count + 1) }
        ensures lines { OnOk result (self.new.unread.lines ≡ self.old.unread.lines ++ unread_line plan.now chunk.now) }
        ensures chunks { OnOk result (self.new.unread.chunks ≡ self.old.unread.chunks ++ chunk.now ∷ []) }
    {
        self.unread.add(plan, chunk)
    }
}

fn push_line(text: &mut Vec<u8>, plan: &Plan, chunk: &Piece) -> Result<(), Memory>
    ensures { OnOk result (text.new.items ≡ text.old.items ++ unread_line plan.now chunk.now) }
{
    push_text(text, "fault:")?;
    push_place(text, plan, chunk)?;
    push_text(text, "\n")
}

fn push_place(text: &mut Vec<u8>, plan: &Plan, chunk: &Piece) -> Result<(), Memory>
    ensures { OnOk result (text.new.items ≡ text.old.items ++ place_text plan.now chunk.now) }
{
    push_text(text, " file=")?;
    push_text(text, plan.file_name(chunk.file))?;
    push_field(text, "offset", chunk.offset)?;
    push_field(text, "length", u64::from(chunk.len))
}
