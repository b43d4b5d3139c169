// The files of a run: taken before it begins, shared by its engines, and closed at its end.
ghost use Rattle.std.specs.Prelude.{◌≡◌, ◌⊎◌, length, map, IfOk, IfErr, IfSome, is_some, vec_len};
ghost use Rattle.std.specs.List.{list_any, range_with_len};
ghost use Rattle.std.specs.Option.{option_copied};
ghost use Rattle.jr_plan.specs.Wishes.{wish_of};
ghost use Rattle.jr_io_files.specs.Engines.{IsFresh, IsOpenFault, opened_views};
ghost use Rattle.jr_cli_grounds.specs.Taken.{asks_launcher, claims_of, directs_of, drop_pipes_of, is_direct, reads_of};
ghost use Rattle.jr_cli_grounds.specs.Wanted.{is_wanted, wishes_of};

use crate::remarks::{Remarks, reasons_of};
use jr_cli_words::{Choice, CliFault};
use jr_escape::Escaped;
use jr_io_blocks::{Dropper, Launcher};
use jr_io_files::{
    Claims, Directs, FileEngine, Reads, Refusal, Reserved, SharedFile, claim_direct,
};
use jr_plan::{Plan, Wish};
use jr_report_faults::Faults;
use jr_system::{Closed, Screen, Stop};
use std::alloc::{AllocError, Global};
use std::fs;
use std::fs::{File, Files};
use std::os::unix::fs::FileTypeExt;

/// The plan's files, open for this run.
#[derive(Drop)]
pub struct Taken<'a> {
    pub(crate) files: FileEngine<SharedFile>,
    // What takes them out of the system's cache.
    pub(crate) launcher: Launcher<'a>,
    // What checks read them through.
    pub(crate) reads: Reads,
    // Whether some are direct, if the jobs say anything of it.
    pub(crate) direct: Option<bool>,
    // What notes say of them.
    pub(crate) remarks: Remarks,
}

// What the jobs say of the I/O to each file of their plan; nothing if all of it is to go through the system's cache.
fn wishes_of(alloc: Global, cached: bool, plan: &Plan) -> Result<Vec<Wish>, AllocError>
    ensures { IfOk result (λ wishes. wishes.items ≡ wishes_of cached plan.now) }
{
    if cached {
        return Ok(Vec::new(alloc));
    }
    all_wishes(alloc, plan)
}

// What the jobs say of each file.
fn all_wishes(alloc: Global, plan: &Plan) -> Result<Vec<Wish>, AllocError>
    ensures { IfOk result (λ wishes. wishes.items ≡ map (wish_of plan.now.clones) (range_with_len 0 (length plan.now.files))) }
{
    let mut wishes = Vec::new(alloc);
    for file in 0..plan.files().len() {
        wishes.push(plan.wish(file))?;
    }
    Ok(wishes)
}

/// Takes the plan's files. Where checks are to read the device, a launcher drops what the system keeps of them, or has the I/O of those
/// whose jobs say so go past its cache. None of them may be one that the run keeps for something else.
pub fn take_files<'a, R: Files<File = File> + AllocGlobal + Screen>(
    rt: &R,
    plan: &Plan,
    choice: &Choice<'a>,
    kept: &[Reserved<'_>],
) -> Result<Taken<'a>, Stop>
    ensures opened { IfOk result (λ taken. taken.files.files ≡ opened_views plan.now.files) }
    ensures reads { IfOk result (λ taken. taken.reads ≡ reads_of choice.now.cached) }
    ensures failed { IfErr result (λ fault. (fault ≡ CliFault.Open) ⊎ (fault ≡ CliFault.Memory)) }
{
    let launcher = Launcher::new(drop_pipes_of(choice));
    let claims = claims_of(choice);
    let Ok(wishes) = wishes_of(rt.alloc(), choice.cached, plan) else {
        return Err(Stop::from(CliFault::Memory));
    };
    let files = match claimed(rt, plan, choice, claims, &wishes, kept) {
        Ok(files) => files,
        Err(refusal) => return Err(Stop::files(refusal)),
    };
    let has_notes = choice.notes || rt.is_shown();
    if has_notes {
        tell_cached(rt, plan, &wishes, &files);
    }
    let direct = had_direct(&wishes, &files);
    Ok(Taken {
        files,
        launcher,
        reads: claims.reads,
        direct,
        remarks: Remarks::new(rt, plan, choice)?,
    })
}

// Claims the plan's files. The launcher is asked for those that are to go past the cache, and for devices, also where checks may read it.
fn claimed<R: Files<File = File> + AllocGlobal>(
    rt: &R,
    plan: &Plan,
    choice: &Choice<'_>,
    claims: Claims,
    wishes: &[Wish],
    kept: &[Reserved<'_>],
) -> Result<FileEngine<SharedFile>, Refusal>
    ensures ok { IfOk result (λ engine. IsFresh engine (opened_views plan.now.files)) }
    ensures err { IfErr result (λ refusal. IsOpenFault refusal.fault (length plan.now.files)) }
{
    let wanted = directs_of(rt.alloc(), wishes)?;
    // (no engine asks yet by the first pair of pipes)
    let asked = if asks_launcher(has_device(rt, plan), wishes) {
        Launcher::new(choice.drop_pipes).dropper(rt, rt.alloc(), 0)?
    } else {
        None
    };
    claim_wanted(rt, plan, claims, wanted.as_slice(), asked.as_deref(), kept)
}

// How the files are taken, as the words say.
pub(crate) fn claims_of(choice: &Choice<'_>) -> Claims
    ensures { result ≡ claims_of choice.now.cached choice.now.allow_mounted_write }
{
    Claims {
        reads: if choice.cached {
            Reads::Cached
        } else {
            Reads::Synced
        },
        devices_in_use: choice.allow_mounted_write,
    }
}

// The pipes by which the run's engines have what is cached dropped.
pub(crate) fn drop_pipes_of<'a>(choice: &Choice<'a>) -> Option<&'a str>
    ensures { option_copied result ≡ drop_pipes_of choice.now.cached (option_copied choice.now.drop_pipes) }
{
    if choice.cached {
        None
    } else {
        choice.drop_pipes
    }
}

// Which files are to go past the cache.
fn directs_of(alloc: Global, wishes: &[Wish]) -> Result<Vec<bool>, AllocError>
    ensures { IfOk result (λ wanted. wanted.items ≡ directs_of wishes.now) }
{
    wishes.iter().map(|wish| is_direct(wish)).collect(alloc)
}

// Whether all jobs of the file say direct=1.
fn is_direct(wish: &Wish) -> bool
    ensures { result ≡ is_direct wish.now }
{
    *wish == Wish::Direct
}

// Whether the launcher is asked while the files are taken.
fn asks_launcher(has_device: bool, wishes: &[Wish]) -> bool
    ensures { result ≡ asks_launcher has_device wishes.now }
{
    has_device || any_direct(wishes)
}

// Whether all jobs of a file say direct=1.
fn any_direct(wishes: &[Wish]) -> bool
    ensures { result ≡ list_any is_direct wishes.now }
{
    wishes.iter().any(|wish| is_direct(wish))
}

// Whether a file of the plan is a block device.
fn has_device<R: Files>(rt: &R, plan: &Plan) -> bool {
    for file in plan.files() {
        if fs::metadata(rt, file.name()).is_ok_and(|it| it.file_type().is_block_device()) {
            return true;
        }
    }
    false
}

// Claims the plan's files, of which these are to go past the cache; this asks for it.
fn claim_wanted<'x, R: Files<File = File> + AllocGlobal>(
    rt: &R,
    plan: &Plan,
    claims: Claims,
    wanted: &'x [bool],
    asked: Option<&'x Dropper>,
    kept: &[Reserved<'_>],
) -> Result<FileEngine<SharedFile>, Refusal>
    ensures ok { IfOk result (λ engine. IsFresh engine (opened_views plan.now.files)) }
    ensures err { IfErr result (λ refusal. IsOpenFault refusal.fault (length plan.now.files)) }
{
    let directs = Directs { wanted, asked };
    claim_direct(rt, rt.alloc(), plan, claims, directs, kept)
}

// Whether the I/O of each file that a job wants direct goes past the system's cache, where a job wants one so.
fn had_direct(wishes: &[Wish], files: &FileEngine<SharedFile>) -> Option<bool>
    ensures { is_some result ≡ list_any is_wanted wishes.now }
{
    if any_wanted(wishes) {
        Some(all_direct(wishes, files))
    } else {
        None
    }
}

// Whether a job wants a file direct.
fn any_wanted(wishes: &[Wish]) -> bool
    ensures { result ≡ list_any is_wanted wishes.now }
{
    wishes.iter().any(|wish| is_wanted(wish))
}

// Whether the I/O of each of these files that are wanted direct goes past the system's cache.
fn all_direct(wishes: &[Wish], files: &FileEngine<SharedFile>) -> bool {
    for (index, wish) in wishes.iter().enumerate() {
        if is_wanted(wish) && !files.is_direct(index) {
            return false;
        }
    }
    true
}

// Whether a job says direct=1 of the file.
fn is_wanted(wish: &Wish) -> bool
    ensures { result ≡ is_wanted wish.now }
{
    *wish != Wish::Cached
}

// Says of which files the I/O goes through the system's cache, though a job says direct=1.
fn tell_cached<R: Eprint>(rt: &R, plan: &Plan, wishes: &[Wish], files: &FileEngine<SharedFile>) {
    for (index, spec) in plan.files().iter().enumerate() {
        let why = match wishes.get(index) {
            Some(Wish::Mixed) => "its jobs disagree on direct",
            Some(Wish::Direct) if !files.is_direct(index) => {
                "direct=1 needs bin/fiorun, with perl, and a system that lets it"
            }
            _ => continue,
        };
        let name = Escaped(&spec.name());
        let _ = eprintln!(rt; "fiorun: note: {name} goes through the system's cache: {why}");
    }
}

impl<'a> Taken<'a> {
    // The files themselves.
    pub(crate) fn files(&self) -> &FileEngine<SharedFile> {
        &self.files
    }

    /// The engine of the worker of this number over these files.
    pub fn engine<R: Files<File = File> + AllocGlobal>(
        &self,
        rt: &R,
        place: usize,
    ) -> Result<FileEngine<SharedFile>, CliFault>
        ensures uncalled { IfOk result (λ engine. IsFresh engine self.now.files.files) }
        ensures failed { IfErr result (λ fault. fault ≡ CliFault.Memory) }
    {
        let alloc = rt.alloc();
        let Ok(dropper) = self.launcher.dropper(rt, alloc, place) else {
            return Err(CliFault::Memory);
        };
        match self.files.share_with(alloc, dropper) {
            Ok(engine) => Ok(engine),
            Err(_) => Err(CliFault::Memory),
        }
    }

    /// Has the system store and drop what it keeps of the files from before the run, by this engine of theirs; not if checks read what the
    /// system has.
    pub fn begin<R: Eprint>(&self, rt: &R, engine: &FileEngine<SharedFile>) {
        // (what was lost before the run isn't the run's)
        if let Err(failed) = engine.begin(self.reads) {
            self.remarks.tell_unsynced(rt, &failed);
        }
        if self.reads == Reads::Synced {
            self.remarks.tell_tried(rt, engine);
        }
    }

    // How many reads of files that are checked the system's cache may have answered.
    fn cached(&self) -> Option<u64> {
        Some(self.files.cached_reads())
    }

    /// Tells the faults of a run that has ended, has all that it wrote synced, and answers what the system said of the files.
    pub fn close<R: Eprint + AllocGlobal>(&self, rt: &R, faults: &Faults) -> Result<Closed, Stop>
        ensures reasons { IfOk result (λ closed. vec_len closed.reasons ≡ vec_len faults.now.first) }
        ensures unstored { IfOk result (λ closed. IfSome closed.unstored (λ stop. stop ≡ CliFault.Write)) }
        ensures failed { IfErr result (λ fault. fault ≡ CliFault.Memory) }
    {
        self.remarks.tell_faults(rt, &self.files, faults);
        self.remarks.tell_undropped(rt, self.files.cached_reads());
        let Ok(reasons) = reasons_of(rt.alloc(), &self.files, faults) else {
            return Err(Stop::from(CliFault::Memory));
        };
        let unstored = match self.files.sync_written() {
            Ok(()) => None,
            Err(failed) => Some(self.remarks.unsettled(rt.alloc(), &failed)),
        };
        Ok(Closed {
            reasons,
            cached: self.cached(),
            direct: self.direct,
            unstored,
            found: Vec::new(rt.alloc()),
        })
    }
}
