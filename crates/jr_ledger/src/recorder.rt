ghost use Rattle.std.specs.Prelude.{◌≡◌, ◌↔◌, ◌++◌, ◌+◌, ◌<◌, ◌^◌, true, [], length, replicate, slice_index, slice_set, IfOk, OnErr, OnOk};
ghost use Rattle.jr_ledger.specs.Lines.{line_text};
ghost use Rattle.jr_ledger.specs.Reading.{head_text};
ghost use Rattle.jr_ledger.specs.Recording.{end_text, return_text, next_sync};
ghost use Rattle.jr_ledger.specs.declared.lines.LedgerLine.TheVariants as line;

use crate::identity::job_digest;
use crate::lines::{LedgerLine, SyncId, push_line};
use jr_model::{Memory, Outcome, WriteId};
use jr_plan::Plan;
use std::alloc::Global;
use std::marker::Model;

/// Records a run: gathers the text of its ledger, which who writes it out takes from here. Each call adds one line at most.
#[derive(Drop)]
pub struct Recorder {
    text: Vec<u8>,
    begun: Vec<u64>,
    // The line that is added, made in a room that is kept: a run adds one for each of its writes.
    line: Vec<u8>,
}

impl Model for Recorder {
    ghost use Rattle.jr_ledger.specs.Recording.{RecorderState};

    ghost Value = { RecorderState };

    ghost view = { λ r. record { text = r.text.items; begun = r.begun.items } };
}

impl Recorder {
    /// The recorder of a run of this plan; its text is the ledger's first line.
    pub fn new(alloc: Global, plan: &Plan) -> Result<Recorder, Memory>
        ensures text { IfOk result (λ recorder. recorder.text ≡ head_text plan.now) }
        ensures begun { IfOk result (λ recorder. recorder.begun ≡ replicate (length plan.now.files) 0) }
    {
        let text = head_text(alloc, plan)?;
        let begun = vec![in alloc; 0; plan.files().len()]?;
        Ok(Recorder {
            text,
            begun,
            line: Vec::new(alloc),
        })
    }

    /// A write ended so. Before its end is handed to the desk.
    pub fn write_ended(&mut self, write: &WriteId, outcome: &Outcome) -> Result<(), Memory>
        ensures text { OnOk result (self.new.text ≡ self.old.text ++ end_text write.now outcome.now) }
        ensures begun { self.new.begun ≡ self.old.begun }
        ensures unchanged { OnErr result (self.new ≡ self.old) }
    {
        match outcome {
            Outcome::Whole => self.push(&LedgerLine::Written(*write)),
            Outcome::Failed | Outcome::Short(_) => Ok(()),
        }
    }

    /// Whether one more sync of this file can be recorded: there is this file, and its count isn't at its end.
    pub fn can_begin(&self, file: u32) -> bool
        ensures { (result ≡ true) ↔ ((file < length self.now.begun) × (slice_index self.now.begun file + 1 < 2 ^ 64)) }
    {
        match self.begun.get(file as usize) {
            Some(count) => *count < u64::MAX,
            None => false,
        }
    }

    /// A sync of a file is about to be asked for: its name, which its return is told by.
    pub fn sync_begins(&mut self, file: u32) -> Result<SyncId, Memory>
        requires file { file < length self.old.begun }
        requires few { slice_index self.old.begun file + 1 < 2 ^ 64 }
        ensures sync { IfOk result (λ sync. sync ≡ next_sync file (slice_index self.old.begun file)) }
        ensures text { IfOk result (λ sync. self.new.text ≡ self.old.text ++ line_text (line.Begun sync)) }
        ensures begun { OnOk result (self.new.begun ≡ slice_set self.old.begun file (slice_index self.old.begun file + 1)) }
        ensures unchanged { OnErr result (self.new ≡ self.old) }
    {
        let sync = SyncId {
            file,
            number: self.begun[file as usize],
        };
        self.push(&LedgerLine::Begun(sync))?;
        self.begun[file as usize] += 1;
        Ok(sync)
    }

    /// A sync has returned: well, or with a failure.
    pub fn sync_returned(&mut self, sync: &SyncId, well: bool) -> Result<(), Memory>
        ensures text { OnOk result (self.new.text ≡ self.old.text ++ return_text sync.now well) }
        ensures begun { self.new.begun ≡ self.old.begun }
        ensures unchanged { OnErr result (self.new ≡ self.old) }
    {
        if well {
            self.push(&LedgerLine::Returned(*sync))
        } else {
            Ok(())
        }
    }

    /// What was recorded since the text was last cleared.
    pub fn text(&self) -> &[u8]
        ensures { result.now ≡ self.now.text }
    {
        self.text.as_slice()
    }

    /// The text was written out: what is recorded from now on is gathered anew.
    pub fn clear(&mut self)
        ensures text { self.new.text ≡ [] }
        ensures begun { self.new.begun ≡ self.old.begun }
    {
        self.text.clear();
    }

    // Appends a line.
    fn push(&mut self, line: &LedgerLine) -> Result<(), Memory>
        ensures text { OnOk result (self.new.text ≡ self.old.text ++ line_text line.now) }
        ensures begun { self.new.begun ≡ self.old.begun }
        ensures unchanged { OnErr result (self.new ≡ self.old) }
    {
        self.line.clear();
        push_line(&mut self.line, line)?;
        self.text.extend_from_slice(self.line.as_slice())?;
        Ok(())
    }
}

// The first line of the ledger of a plan.
fn head_text(alloc: Global, plan: &Plan) -> Result<Vec<u8>, Memory>
    ensures { IfOk result (λ text. text.items ≡ head_text plan.now) }
{
    let digest = job_digest(alloc, plan)?;
    let mut text = Vec::new(alloc);
    text.extend_from_slice(b"fiorun ledger 1 ")?;
    text.extend_from_slice(digest.as_bytes())?;
    text.extend_from_slice(b"\n")?;
    Ok(text)
}
