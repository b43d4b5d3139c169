// What a run is told in beside its report: its trace, the list, the JSON and the page. Where each goes is decided before the run, and made
// ready there.
use crate::roads::{Road, Sink};
use crate::unfailing::Unfailing;
use jr_cli_ends::{Findings, Storage, json_text, list_text, list_text_with_faults};
use jr_cli_words::{BlockSize, Choice, CliFault, list_size};
use jr_desk::Desk;
use jr_io_devices::FileNumbers;
use jr_io_files::Reserved;
use jr_model::{EngineKind, Memory};
use jr_plan::Plan;
use jr_report_json::RunNotes;
use jr_report_maps::blocks_text;
use jr_report_outputs::{Spot, Target, Unfit, Way, met_by};
use jr_report_page::page;
use jr_stats::trace;
use jr_system::{Outlet, Stop};
use std::alloc::Global;
use std::fs;
use std::fs::File;
use std::io::{BufWriter, Write};

/// What an output says of a run.
#[derive(Drop)]
pub enum Content {
    /// Each of its events.
    Trace,
    /// Which writes ended and which syncs returned, as it happens.
    Ledger,
    /// The list of the bad blocks of the plan's only file, with blocks of this size.
    BadBlocks(BlockSize),
    /// The list of the bad blocks and of those of faults.
    WrongBlocks(BlockSize),
    /// The report as JSON.
    Json,
    /// The page that shows the run.
    Page,
}

// An output.
#[derive(Drop)]
struct Output {
    content: Content,
    // The path that the words give it.
    path: String,
    // Where that leads.
    target: Target,
    // How it is written.
    way: Way,
    road: Road,
}

/// The outputs of a run in the order in which they are written, and what they may not go over: the files of its jobs, by their names, what it
/// writes to otherwise, and standard input.
#[derive(Drop)]
pub struct Outputs {
    all: Vec<Output>,
    files: Vec<String>,
    streams: Vec<Spot>,
    input: Vec<Spot>,
    // How the names of the traces begin, if each round has one.
    kept_traces: Option<String>,
}

/// What writes the trace of a run.
pub type TraceFile<'a, R> = Unfailing<BufWriter<Sink<'a, R>>>;

impl Outputs {
    /// Those that the words ask for, each ready to be written. One that can't be is refused, and then none is made.
    pub fn of<R: Outlet>(rt: &R, choice: &Choice<'_>, plan: &Plan) -> Result<Outputs, Stop> {
        let mut outputs = Outputs {
            all: Vec::new(rt.alloc()),
            files: file_names(rt.alloc(), plan)?,
            streams: streams_of(rt, choice)?,
            input: Vec::new(rt.alloc()),
            kept_traces: kept_traces(rt.alloc(), choice)?,
        };
        add_stream(rt, &mut outputs.input, "0")?;
        outputs.add_wanted(rt, choice, plan)?;
        outputs.refuse(rt, choice)?;
        outputs.refuse_kept(rt, choice)?;
        match outputs.make(rt) {
            Ok(()) => Ok(outputs),
            Err(stop) => {
                outputs.clear(rt);
                Err(stop)
            }
        }
    }

    // Adds what the words ask for, with where it leads.
    fn add_wanted<R: Outlet>(
        &mut self,
        rt: &R,
        choice: &Choice<'_>,
        plan: &Plan,
    ) -> Result<(), Stop> {
        // (the check of a trace has no trace of its own)
        if choice.check_trace.is_none() && !choice.keep_traces {
            self.add(rt, choice.trace, Content::Trace)?;
        }
        self.add(rt, choice.ledger, Content::Ledger)?;
        let has_faults = has_faults(choice)?;
        if choice.bad_blocks.is_some() {
            let content = list_content(plan, choice, has_faults)?;
            self.add(rt, choice.bad_blocks, content)?;
        }
        self.add(rt, choice.json, Content::Json)?;
        self.add(rt, choice.page, Content::Page)
    }

    fn add<R: Outlet>(&mut self, rt: &R, path: Option<&str>, content: Content) -> Result<(), Stop> {
        let Some(path) = path else {
            return Ok(());
        };
        push(&mut self.all, Output::at(rt, path, content)?)
    }

    // Refuses the first output that would go over what the run has otherwise, or over another output. Answers what all of these are.
    fn refuse<R: Outlet>(&self, rt: &R, choice: &Choice<'_>) -> Result<TakenSpots, Stop> {
        let mut known = self.known(rt, choice)?;
        for output in self.all.iter() {
            let spot = self.fitting(rt, &known, output)?;
            known.add(spot, Unfit::Output)?;
        }
        Ok(known)
    }

    // The place of an output, which is refused if it would go over one of these.
    fn fitting<R: Outlet>(
        &self,
        rt: &R,
        known: &TakenSpots,
        output: &Output,
    ) -> Result<Option<Spot>, Stop> {
        let spot = match output.target.spot(rt, rt.alloc()) {
            Ok(spot) => spot,
            Err(error) => return Err(output.unmade(rt, error)),
        };
        let Some(spot) = spot else {
            return Ok(None);
        };
        if !self.is_stream(rt, output) && self.is_of_stream(&spot) {
            return Err(Stop::output(output.content.word(), Unfit::Stream));
        }
        match known.why(&spot) {
            Some(why) => Err(Stop::output(output.content.word(), why)),
            None => Ok(Some(spot)),
        }
    }

    // Refuses the traces of all rounds if that of the first one can't be written.
    fn refuse_kept<R: Outlet>(&self, rt: &R, choice: &Choice<'_>) -> Result<(), Stop> {
        if let Some(path) = &self.kept_traces {
            let _first = self.kept_output(rt, choice, path.as_str(), 0)?;
        }
        Ok(())
    }

    // The trace of a round, not made yet.
    fn kept_output<R: Outlet>(
        &self,
        rt: &R,
        choice: &Choice<'_>,
        path: &str,
        round: u32,
    ) -> Result<Output, Stop> {
        let Ok(path) = format!(in rt.alloc(); "{path}.{round}") else {
            return Err(Stop::from(CliFault::Memory));
        };
        let output = Output::at(rt, path.as_str(), Content::Trace)?;
        let known = self.refuse(rt, choice)?;
        let _spot = self.fitting(rt, &known, &output)?;
        Ok(output)
    }

    /// Writes the trace of this round to a file of its own, if each round has one.
    pub fn keep_trace<R: Outlet>(
        &self,
        rt: &R,
        choice: &Choice<'_>,
        round: u32,
        desk: &Desk,
    ) -> Result<(), Stop> {
        let Some(path) = &self.kept_traces else {
            return Ok(());
        };
        let mut output = self.kept_output(rt, choice, path.as_str(), round)?;
        output.make(rt)?;
        match self.write_made(rt, &output, trace(rt.alloc(), desk)) {
            Ok(()) => Ok(()),
            Err(stop) => {
                output.clear(rt);
                Err(stop)
            }
        }
    }

    // Whether the output is standard output or error by its number, or by that of another descriptor of the same file.
    fn is_stream<R: Outlet>(&self, rt: &R, output: &Output) -> bool {
        output
            .target
            .descriptor()
            .is_some_and(|number| Road::stream(rt, number).is_some())
    }

    // Whether standard input, or a stream that the program writes to, has this place.
    fn is_of_stream(&self, spot: &Spot) -> bool {
        met_by(spot, self.streams.as_slice()).is_some()
            || met_by(spot, self.input.as_slice()).is_some()
    }

    // What the program has otherwise: the job file, the trace that it checks, the ledger that it judges by, and the files of the jobs.
    fn known<R: Outlet>(&self, rt: &R, choice: &Choice<'_>) -> Result<TakenSpots, Stop> {
        let mut known = TakenSpots::new(rt.alloc());
        match choice.job {
            Some(path) => known.add(spot_at(rt, path), Unfit::Job)?,
            None => known.add(plain_input(rt), Unfit::Job)?,
        }
        if let Some(path) = choice.check_trace {
            known.add(spot_at(rt, path), Unfit::Trace)?;
        }
        if let Some(path) = choice.after {
            known.add(spot_at(rt, path), Unfit::Ledger)?;
        }
        for name in self.files.as_slice() {
            known.add(spot_at(rt, name.as_str()), Unfit::File)?;
        }
        Ok(known)
    }

    // Opens the streams, which may have to wait for their readers, and then makes the new files.
    fn make<R: Outlet>(&mut self, rt: &R) -> Result<(), Stop> {
        self.make_those(rt, Way::Through)?;
        self.make_those(rt, Way::Replace)
    }

    fn make_those<R: Outlet>(&mut self, rt: &R, way: Way) -> Result<(), Stop> {
        for output in self.all.iter_mut() {
            if output.way == way {
                output.make(rt)?;
            }
        }
        Ok(())
    }

    /// Removes the new files that haven't taken their names.
    pub fn clear<R: Outlet>(&self, rt: &R) {
        for output in self.all.iter() {
            output.clear(rt);
        }
    }

    /// Whether none is asked for but what is written while the run goes on, or at its end from its events.
    pub fn is_empty(&self) -> bool {
        self.all.iter().all(|output| matches!(&output.content, Content::Trace | Content::Ledger))
    }

    /// What no file of a job may be: an output, or a stream of the program.
    pub fn kept<R: Outlet>(&self, rt: &R) -> Result<Vec<Reserved<'_>>, Stop> {
        let mut kept = Vec::new(rt.alloc());
        for output in self.all.iter() {
            if let Some(one) = output.kept() {
                push(&mut kept, one)?;
            }
        }
        for stream in self.streams.as_slice() {
            if let Spot::File(identity) = stream {
                push(&mut kept, Reserved::File(*identity))?;
            }
        }
        Ok(kept)
    }

    /// What writes the trace, where one is asked for.
    pub fn trace<'a, R: Outlet>(&self, rt: &'a R) -> Result<Option<TraceFile<'a, R>>, Stop> {
        let Some(output) = self.trace_output() else {
            return Ok(None);
        };
        let sink = match output.road.sink(rt) {
            Ok(sink) => sink,
            Err(error) => return Err(output.unmade(rt, error)),
        };
        match BufWriter::new(rt.alloc(), sink) {
            Ok(out) => Ok(Some(Unfailing::new(out))),
            Err(_) => Err(Stop::from(CliFault::Memory)),
        }
    }

    fn trace_output(&self) -> Option<&Output> {
        self.all
            .iter()
            .find(|output| matches!(&output.content, Content::Trace))
    }

    /// Has the trace take its name, which was written whole.
    pub fn finish_trace<R: Outlet>(&self, rt: &R) -> Result<(), Stop> {
        match self.trace_output() {
            Some(output) => self.finish(rt, output),
            None => Ok(()),
        }
    }

    /// The file that the ledger goes to, where one is asked for. What is written there stands in it at once.
    pub fn ledger<R: Outlet>(&self, rt: &R) -> Result<Option<File>, Stop> {
        let Some(output) = self.ledger_output() else {
            return Ok(None);
        };
        match output.road.file(rt) {
            Ok(file) => Ok(Some(file)),
            Err(error) => Err(output.unmade(rt, error)),
        }
    }

    /// Has the ledger take its name, whose first line is written.
    pub fn finish_ledger<R: Outlet>(&self, rt: &R) -> Result<(), Stop> {
        match self.ledger_output() {
            Some(output) => self.finish(rt, output),
            None => Ok(()),
        }
    }

    fn ledger_output(&self) -> Option<&Output> {
        self.all
            .iter()
            .find(|output| matches!(&output.content, Content::Ledger))
    }

    /// Whether the JSON is asked for.
    pub fn has_json(&self) -> bool {
        self.all
            .iter()
            .any(|output| matches!(&output.content, Content::Json))
    }

    /// The size of the blocks of the list, where that is asked for.
    pub fn list_size(&self) -> Option<&BlockSize> {
        for output in self.all.iter() {
            match &output.content {
                Content::BadBlocks(size) | Content::WrongBlocks(size) => return Some(size),
                Content::Trace | Content::Ledger | Content::Json | Content::Page => {}
            }
        }
        None
    }

    /// Whether that list has the blocks of faults too.
    pub fn lists_faults(&self) -> bool {
        self.all.iter().any(|output| matches!(&output.content, Content::WrongBlocks(_)))
    }

    /// Writes a line of the JSON of several rounds, which has its name from the first line on.
    pub fn add_json<R: Outlet>(&self, rt: &R, line: &[u8], is_first: bool) -> Result<(), Stop> {
        for output in self.all.iter() {
            if matches!(&output.content, Content::Json) {
                self.write_text(rt, output, line)?;
                if is_first {
                    self.finish(rt, output)?;
                }
            }
        }
        Ok(())
    }

    /// Writes the others of several rounds: the trace and the page of the last one, and the list of the blocks that were bad in any.
    pub fn write_last<R: Outlet>(
        &self,
        rt: &R,
        desk: &Desk,
        findings: &Findings<'_>,
        blocks: &[u64],
        notes: &RunNotes<'_>,
    ) -> Result<(), Stop> {
        let mut result = Ok(());
        for output in self.all.iter() {
            let text = match &output.content {
                Content::Trace => trace(rt.alloc(), desk),
                Content::BadBlocks(_) | Content::WrongBlocks(_) => {
                    blocks_text(rt.alloc(), blocks)
                }
                Content::Page => page_text(rt.alloc(), findings, notes),
                Content::Json | Content::Ledger => continue,
            };
            result = result.and(self.write_made(rt, output, text));
        }
        result
    }

    /// Writes to each the text that this function makes of what it says. What can't be written keeps no other from it, and the first that
    /// can't is answered.
    pub fn write_texts<R: Outlet, F: Fn(&Content) -> Result<Vec<u8>, Memory>>(
        &self,
        rt: &R,
        text_of: F,
    ) -> Result<(), Stop>
        requires { F.IsAlwaysCallable text_of }
    {
        let mut result = Ok(());
        for output in self.all.iter() {
            let text = text_of(&output.content);
            result = result.and(self.write_made(rt, output, text));
        }
        result
    }

    // Writes a text that was made for it, and has it take its name.
    fn write_made<R: Outlet>(
        &self,
        rt: &R,
        output: &Output,
        text: Result<Vec<u8>, Memory>,
    ) -> Result<(), Stop> {
        let Ok(text) = text else {
            return Err(Stop::from(CliFault::Memory));
        };
        self.write_text(rt, output, text.as_slice())?;
        self.finish(rt, output)
    }

    fn write_text<R: Outlet>(&self, rt: &R, output: &Output, text: &[u8]) -> Result<(), Stop> {
        let mut sink = match output.road.sink(rt) {
            Ok(sink) => sink,
            Err(error) => return Err(output.unmade(rt, error)),
        };
        match sink.write_all(text) {
            Ok(()) => Ok(()),
            Err(error) => Err(output.unmade(rt, error)),
        }
    }

    /// Writes the others, of a run that has its report. What can't be written keeps no other from it, and the first that can't is answered.
    pub fn write<R: Outlet>(
        &self,
        rt: &R,
        findings: &Findings<'_>,
        storage: &Storage,
        notes: &RunNotes<'_>,
    ) -> Result<(), Stop> {
        let mut result = Ok(());
        for output in self.all.iter() {
            let written = self.write_one(rt, output, findings, storage, notes);
            result = result.and(written);
        }
        result
    }

    fn write_one<R: Outlet>(
        &self,
        rt: &R,
        output: &Output,
        findings: &Findings<'_>,
        storage: &Storage,
        notes: &RunNotes<'_>,
    ) -> Result<(), Stop> {
        if matches!(&output.content, Content::Trace | Content::Ledger) {
            return Ok(());
        }
        self.write_made(
            rt,
            output,
            output.content.text(rt.alloc(), findings, storage, notes),
        )
    }

    // Has an output that was written take its name, unless a file of a job has it by now.
    fn finish<R: Outlet>(&self, rt: &R, output: &Output) -> Result<(), Stop> {
        let Road::New(file) = &output.road else {
            return Ok(());
        };
        if self.is_of_job(rt, file.target()) {
            return Err(Stop::output(output.content.word(), Unfit::File));
        }
        match file.finish(rt) {
            Ok(()) => Ok(()),
            Err(error) => Err(output.unmade(rt, error)),
        }
    }

    // Whether a file of a job stands at this path.
    fn is_of_job<R: Outlet>(&self, rt: &R, path: &str) -> bool {
        let Ok(found) = fs::symlink_metadata(rt, path) else {
            return false;
        };
        let identity = FileNumbers::of(&found).identity();
        self.files.iter().any(|name| {
            fs::metadata(rt, name.as_str()).is_ok_and(|there| FileNumbers::of(&there).identity()
                == identity)
        })
    }
}

impl Output {
    // That of this path, not made yet.
    fn at<R: Outlet>(rt: &R, path: &str, content: Content) -> Result<Output, Stop> {
        let target = match Target::at(rt, rt.alloc(), path) {
            Ok(target) => target,
            Err(error) => return Err(Stop::unmade(rt.alloc(), path, error)),
        };
        let way = match target.way() {
            Ok(way) => way,
            Err(why) => return Err(Stop::output(content.word(), why)),
        };
        Ok(Output {
            content,
            path: owned(rt.alloc(), path)?,
            target,
            way,
            road: Road::Unmade,
        })
    }

    // Opens the stream that it is, or makes its new file.
    fn make<R: Outlet>(&mut self, rt: &R) -> Result<(), Stop> {
        match Road::made(rt, &self.target, self.way) {
            Ok(road) => {
                self.road = road;
                Ok(())
            }
            Err(error) => Err(self.unmade(rt, error)),
        }
    }

    // Removes its new file if that hasn't taken its name.
    fn clear<R: Outlet>(&self, rt: &R) {
        if let Road::New(file) = &self.road {
            file.remove(rt);
        }
    }

    fn unmade<R: Outlet>(&self, rt: &R, error: std::io::Error) -> Stop {
        Stop::unmade(rt.alloc(), self.path.as_str(), error)
    }

    // What no file of a job may be for its sake.
    fn kept(&self) -> Option<Reserved<'_>> {
        match &self.road {
            Road::New(file) => Some(Reserved::At(file.target())),
            Road::Open(_) => match jr_report_outputs::spot_of(self.target.found()?)? {
                Spot::File(identity) => Some(Reserved::File(identity)),
                _ => Some(Reserved::At(self.target.path())),
            },
            Road::Unmade | Road::Out | Road::Error => None,
        }
    }
}

// Places that a run has, and what for.
#[derive(Drop)]
struct TakenSpots {
    spots: Vec<Spot>,
    whys: Vec<Unfit>,
}

impl TakenSpots {
    fn new(alloc: Global) -> TakenSpots {
        TakenSpots {
            spots: Vec::new(alloc),
            whys: Vec::new(alloc),
        }
    }

    // Adds the place, if there is one.
    fn add(&mut self, spot: Option<Spot>, why: Unfit) -> Result<(), Stop> {
        let Some(spot) = spot else {
            return Ok(());
        };
        push(&mut self.spots, spot)?;
        push(&mut self.whys, why)
    }

    // What the first of them that is this place is for.
    fn why(&self, spot: &Spot) -> Option<Unfit> {
        let place = met_by(spot, self.spots.as_slice())?;
        self.whys.get(place).copied()
    }
}

impl Content {
    // The word that asks for it.
    fn word(&self) -> &'static str {
        match self {
            Content::Trace => "--trace",
            Content::Ledger => "--ledger",
            Content::BadBlocks(_) | Content::WrongBlocks(_) => "--bad-blocks",
            Content::Json => "--json",
            Content::Page => "--page",
        }
    }

    fn text(
        &self,
        alloc: Global,
        findings: &Findings<'_>,
        storage: &Storage,
        notes: &RunNotes<'_>,
    ) -> Result<Vec<u8>, Memory> {
        match self {
            Content::Trace | Content::Ledger => Ok(Vec::new(alloc)),
            Content::BadBlocks(size) => list_text(alloc, findings, size),
            Content::WrongBlocks(size) => list_text_with_faults(alloc, findings, size),
            Content::Json => json_text(alloc, findings, notes, storage),
            Content::Page => page_text(alloc, findings, notes),
        }
    }
}

fn page_text(
    alloc: Global,
    findings: &Findings<'_>,
    notes: &RunNotes<'_>,
) -> Result<Vec<u8>, Memory> {
    page(
        alloc,
        &jr_report_page::PageFindings {
            plan: findings.plan(),
            history: findings.history(),
            totals: findings.totals(),
            bads: findings.bads_in_order(),
            faults: findings.faults(),
            is_interrupted: findings.is_interrupted(),
            found: notes.found,
            setting: notes.setting,
            files: notes.files,
        },
    )
}

// The place at which a path leads to a file that is read or written otherwise; none where that can't be said.
fn spot_at<R: Outlet>(rt: &R, path: &str) -> Option<Spot> {
    let target = Target::at(rt, rt.alloc(), path).ok()?;
    target.spot(rt, rt.alloc()).ok()?
}

// The place of the open file of this number, but for a device of characters, which nothing can go over.
fn stream_spot<R: Outlet>(rt: &R, number: &str) -> Option<Spot> {
    let path = format!(in rt.alloc(); "/proc/self/fd/{number}").ok()?;
    let found = fs::metadata(rt, path.as_str()).ok()?;
    match jr_report_outputs::spot_of(&found)? {
        Spot::File(identity) if !found.is_dir() => Some(Spot::File(identity)),
        _ => None,
    }
}

// The place of a job file that is read as standard input.
fn plain_input<R: Outlet>(rt: &R) -> Option<Spot> {
    let found = fs::metadata(rt, "/proc/self/fd/0").ok()?;
    if found.is_file() {
        jr_report_outputs::spot_of(&found)
    } else {
        None
    }
}

// What the list of bad blocks says.
fn list_content(plan: &Plan, choice: &Choice<'_>, has_faults: bool) -> Result<Content, CliFault> {
    let size = list_size(plan, choice.bad_blocks_size)?;
    if has_faults {
        return Ok(Content::WrongBlocks(size));
    }
    Ok(Content::BadBlocks(size))
}

// How the names of the traces of all rounds begin, if these are wanted.
fn kept_traces(alloc: Global, choice: &Choice<'_>) -> Result<Option<String>, Stop> {
    if !choice.keep_traces {
        return Ok(None);
    }
    let has_rounds = choice.run_for.is_some() || choice.repeat.is_some();
    match choice.trace {
        Some(path) if has_rounds => Ok(Some(owned(alloc, path)?)),
        _ => Err(Stop::from(CliFault::KeptTraces)),
    }
}

// Whether the list of bad blocks is to have the blocks of faults too.
fn has_faults(choice: &Choice<'_>) -> Result<bool, CliFault> {
    match choice.bad_blocks_also {
        None => Ok(false),
        Some("faults") => Ok(true),
        Some(_) => Err(CliFault::BlockKind),
    }
}

// The places of what the program writes to: standard output and error, and the pipes to who started it.
fn streams_of<R: Outlet>(rt: &R, choice: &Choice<'_>) -> Result<Vec<Spot>, Stop> {
    let mut streams = Vec::new(rt.alloc());
    for number in ["1", "2", choice.stop_fd.unwrap_or("")] {
        add_stream(rt, &mut streams, number)?;
    }
    for pair in choice.drop_pipes.unwrap_or("").split(',') {
        if let Some((requests, answers)) = pair.split_once(':') {
            add_stream(rt, &mut streams, requests)?;
            add_stream(rt, &mut streams, answers)?;
        }
    }
    Ok(streams)
}

fn add_stream<R: Outlet>(rt: &R, streams: &mut Vec<Spot>, number: &str) -> Result<(), Stop> {
    match stream_spot(rt, number) {
        Some(spot) => push(streams, spot),
        None => Ok(()),
    }
}

// The names of the files of a plan, if its engine has files.
fn file_names(alloc: Global, plan: &Plan) -> Result<Vec<String>, Stop> {
    let mut names = Vec::new(alloc);
    if plan.engine() == EngineKind::File {
        for file in plan.files() {
            push(&mut names, owned(alloc, file.name())?)?;
        }
    }
    Ok(names)
}

fn owned(alloc: Global, text: &str) -> Result<String, CliFault> {
    match String::from_str(alloc, text) {
        Ok(text) => Ok(text),
        Err(_) => Err(CliFault::Memory),
    }
}

fn push<X: Drop>(all: &mut Vec<X>, one: X) -> Result<(), Stop> {
    match all.push(one) {
        Ok(()) => Ok(()),
        Err(_) => Err(Stop::from(CliFault::Memory)),
    }
}
