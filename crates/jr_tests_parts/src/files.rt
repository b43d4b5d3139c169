// Files as an engine: what no run of the program shows. (What runs make of files stands in checks/program/files.py.)
ghost use Rattle.std.specs.Prelude.{◌+◌, ◌≤◌, IfOk};

use crate::asserts::same;
use crate::plans::in_sectors;
use jr_engines::{Engine, EngineFault};
use jr_io_blocks::{Positioned, Room, read_whole, write_whole};
use jr_io_files::{
    Claims, Directs, FileEngine, FileFault, Reads, Refusal, SharedFile, claim, claim_direct,
    lay_out,
};
use jr_model::{EngineKind, IoType, VerifyKind};
use jr_plan::{Draft, Plan, Workload};
use std::alloc::{AllocError, Global};
use std::fs::File;
use std::io::ErrorKind;
use std::process::Abort;
use std::rt::{Env, Files};
use std::test::Fail;
use std::{env, fs, io, process};

// A folder of this test's own, below the system's folder for such.
fn fresh_folder<R: Files + Env + AllocGlobal>(rt: &R, id: u32, name: &str) -> io::Result<String> {
    let mut folder = env::temp_dir(rt)?;
    folder.push(format!(in rt.alloc(); "fiorun-{id}-{name}")?.as_str())?;
    let folder = folder.into_string();
    fs::create_dir(rt, folder.as_str())?;
    Ok(folder)
}

fn path_in(alloc: Global, folder: &str, name: &str) -> Result<String, AllocError> {
    format!(in alloc; "{folder}/{name}")
}

// The plan of a job that writes eight blocks of a page of the file of this name, and checks them.
fn checked(alloc: Global, folder: &str, name: &str) -> Result<Plan, Fail> {
    let mut workload = Workload::plain(IoType::Write, 4096, 8);
    workload.method.kind = VerifyKind::Md5;
    let mut draft = Draft::new(alloc);
    draft.add(alloc, &workload, name, path_in(alloc, folder, name)?, 0)?;
    if draft.clones() == 0 {
        return Err(Fail::from("no clones"));
    }
    Ok(draft.finish(EngineKind::File, 0))
}

// Writes in three regions, one call over two of them, and reads of what was written and of what wasn't.
fn assert_fresh(rt: &impl Abort, engine: &mut impl Engine, other: &mut impl Engine) {
    same(rt, (engine.calls(), other.calls()), (0, 0));
    same(rt, engine.write(0, 8190, &[1, 2, 3, 4]), Ok(4));
    same(rt, other.write(0, 20_000, &[5]), Ok(1));
    let mut buf = [9; 4];
    same(rt, other.read(0, 8190, &mut buf), Ok(4));
    same(rt, buf, [1, 2, 3, 4]);
    same(rt, engine.read(0, 19_999, &mut buf[..3]), Ok(3));
    same(rt, buf, [0, 5, 0, 4]);
    same(rt, engine.write(0, 32_766, &[6, 7, 8]), Ok(3));
    same(rt, engine.read(0, 32_766, &mut buf), Ok(3));
    same(rt, buf, [6, 7, 8, 4]);
    same(rt, (engine.failures(), other.failures()), (0, 0));
}

// Runs both shares of a file, which can be settled before that and after it.
fn assert_shared(
    rt: &impl Abort,
    alloc: Global,
    first: FileEngine<SharedFile>,
) -> Result<(), Fail> {
    let mut first = first;
    let mut second = first.share(alloc)?;
    same(rt, first.sync_written().is_ok(), true);
    assert_fresh(rt, &mut first, &mut second);
    same(rt, second.sync_written().is_ok(), true);
    Ok(())
}

// The engine of a plan's files, which are laid out first.
fn own<R: Files<File = File>>(rt: &R, alloc: Global, plan: Plan) -> Result<FileEngine, FileFault> {
    lay_out(rt, &plan)?;
    FileEngine::new(rt, alloc, &plan)
}

// Takes the plan's files as a run does.
fn shared<R: Files<File = File>>(
    rt: &R,
    alloc: Global,
    plan: &Plan,
    reads: Reads,
) -> Result<FileEngine<SharedFile>, Refusal> {
    let claims = Claims {
        reads,
        devices_in_use: false,
    };
    claim(rt, alloc, plan, claims)
}

// Claims files that are to be direct, where no launcher can be asked.
fn unasked<R: Files<File = File>>(
    rt: &R,
    alloc: Global,
    plan: &Plan,
) -> Result<FileEngine<SharedFile>, Refusal> {
    let claims = Claims {
        reads: Reads::Synced,
        devices_in_use: false,
    };
    let directs = Directs {
        wanted: &[true],
        asked: None,
    };
    claim_direct(rt, alloc, plan, claims, directs, &[])
}

// Two engines over one file of this folder.
fn assert_own<R: Files<File = File> + Abort>(
    rt: &R,
    alloc: Global,
    folder: &str,
) -> Result<(), Fail> {
    let plan = checked(alloc, folder, "a.0.0")?;
    let mut engine = own(rt, alloc, plan)?;
    let mut other = FileEngine::new(rt, alloc, &checked(alloc, folder, "a.0.0")?)?;
    assert_fresh(rt, &mut engine, &mut other);
    Ok(())
}

// An engine over a file of this name in the folder, whose checks read so.
fn assert_read<R: Files<File = File> + Abort>(
    rt: &R,
    alloc: Global,
    folder: &str,
    name: &str,
    reads: Reads,
) -> Result<(), Fail> {
    let plan = checked(alloc, folder, name)?;
    let engine = shared(rt, alloc, &plan, reads)?;
    assert_shared(rt, alloc, engine)
}

// An engine over a file of this folder that is to be direct, where no launcher can be asked.
fn assert_unasked<R: Files<File = File> + Abort>(
    rt: &R,
    alloc: Global,
    folder: &str,
) -> Result<(), Fail> {
    let plan = checked(alloc, folder, "d.0.0")?;
    let engine = unasked(rt, alloc, &plan)?;
    same(rt, engine.is_direct(0), false);
    assert_shared(rt, alloc, engine)
}

// Engines of files in this folder, each over the file of its own.
fn assert_opened<R: Files<File = File> + Abort>(
    rt: &R,
    alloc: Global,
    folder: &str,
) -> Result<(), Fail> {
    assert_own(rt, alloc, folder)?;
    assert_read(rt, alloc, folder, "b.0.0", Reads::Synced)?;
    assert_read(rt, alloc, folder, "c.0.0", Reads::Cached)?;
    assert_unasked(rt, alloc, folder)
}

#[test]
fn files_are_read_as_they_were_written(rt: HostRuntime) -> Result<(), Fail> {
    let folder = fresh_folder(&rt, process::id(rt.process()), "fresh")?;
    assert_opened(&rt, rt.alloc(), folder.as_str())?;
    fs::remove_dir_all(&rt, folder.as_str())?;
    Ok(())
}

// Is the second of three files named where a folder stands in its place, and the first where none is there?
fn assert_named<R: Files<File = File> + Abort>(
    rt: &R,
    alloc: Global,
    plan: &Plan,
    folder: &str,
) -> Result<(), Fail> {
    let none = FileEngine::new(rt, alloc, plan).err();
    same(rt, none, Some(FileFault::File(0)));
    fs::create_dir(rt, folder)?;
    let second = Some(FileFault::File(1));
    same(rt, lay_out(rt, plan).err(), second);
    same(rt, FileEngine::new(rt, alloc, plan).err(), second);
    let refused = shared(rt, alloc, plan, Reads::Synced).err();
    same(rt, refused.map(|it| it.fault), second);
    Ok(())
}

#[test]
fn refused_files_are_named(rt: HostRuntime) -> Result<(), Fail> {
    let alloc = rt.alloc();
    let folder = fresh_folder(&rt, process::id(rt.process()), "refused")?;
    let first = path_in(alloc, folder.as_str(), "a")?;
    let second = path_in(alloc, folder.as_str(), "b")?;
    let files = [(first.as_str(), 0, 2), (second.as_str(), 0, 2)];
    let plan = in_sectors(alloc, IoType::Write, &files)?;
    assert_named(&rt, alloc, &plan, second.as_str())?;
    fs::remove_dir_all(&rt, folder.as_str())?;
    let first = lay_out(&rt, &plan).err();
    same(&rt, first, Some(FileFault::File(0)));
    Ok(())
}

// A file whose odd calls are interrupted and whose others move at most two bytes, up to its last call, which fails.
#[derive(Drop)]
struct Piecemeal {
    bytes: [u8; 8],
    calls: u64,
    last: u64,
}

impl Piecemeal {
    fn new(last: u64) -> Piecemeal {
        Piecemeal {
            bytes: [1, 2, 3, 4, 5, 6, 7, 8],
            calls: 0,
            last,
        }
    }

    fn moves(&mut self, len: usize, offset: u64) -> io::Result<(usize, usize)>
        ensures { IfOk result (λ (place, count). (place + count ≤ 8) × (count ≤ len)) }
    {
        self.calls = self.calls.saturating_add(1);
        if self.calls >= self.last {
            return Err(io::Error::from(ErrorKind::StorageFull));
        }
        if self.calls % 2 == 1 {
            return Err(io::Error::from(ErrorKind::Interrupted));
        }
        let place = offset.min(8) as usize;
        Ok((place, len.min(2).min(8 - place)))
    }
}

impl Positioned for Piecemeal {
    ghost use Rattle.jr_io_blocks.specs.Parts.{unknown_view};

    ghost view = { λ _. unknown_view };

    fn read_at(&mut self, buf: &mut [u8], offset: u64) -> io::Result<usize> {
        let (place, count) = self.moves(buf.len(), offset)?;
        buf[..count].copy_from_slice(&self.bytes[place..place + count]);
        Ok(count)
    }

    fn write_at(&mut self, buf: &[u8], offset: u64) -> io::Result<usize> {
        let (place, count) = self.moves(buf.len(), offset)?;
        self.bytes[place..place + count].copy_from_slice(&buf[..count]);
        Ok(count)
    }
}

#[test]
fn parts_are_gone_on_with(rt: HostRuntime) {
    let mut file = Piecemeal::new(99);
    let mut buf = [9; 5];
    same(
        &rt,
        read_whole(&mut file, &mut Room::none(), 1, &mut buf),
        Ok(5),
    );
    same(&rt, (buf, file.calls), ([2, 3, 4, 5, 6], 6));
    same(
        &rt,
        read_whole(&mut file, &mut Room::none(), 5, &mut buf),
        Ok(3),
    );
    same(&rt, buf, [6, 7, 8, 5, 6]);
    same(
        &rt,
        write_whole(&mut file, &mut Room::none(), 2, &[21, 22, 23]),
        Ok(3),
    );
    same(&rt, file.bytes, [1, 2, 21, 22, 23, 6, 7, 8]);
    same(
        &rt,
        write_whole(&mut file, &mut Room::none(), 6, &[24, 25, 26]),
        Ok(2),
    );
}

#[test]
fn a_failed_part_fails_its_call(rt: HostRuntime) {
    let failed = Err(EngineFault::Device);
    let mut file = Piecemeal::new(3);
    let mut buf = [9; 5];
    same(
        &rt,
        read_whole(&mut file, &mut Room::none(), 0, &mut buf),
        failed,
    );
    let mut file = Piecemeal::new(3);
    same(
        &rt,
        write_whole(&mut file, &mut Room::none(), 0, &[11, 12, 13]),
        failed,
    );
    same(&rt, file.bytes, [11, 12, 3, 4, 5, 6, 7, 8]);
}

// Two files, of which the second one's fourth call fails.
fn two_files(alloc: Global) -> Result<FileEngine<Piecemeal>, Fail> {
    let mut files = Vec::with_capacity(alloc, 2)?;
    files.push(Piecemeal::new(99))?;
    files.push(Piecemeal::new(4))?;
    Ok(FileEngine::over(files))
}

fn assert_files(rt: &impl Abort, engine: &mut impl Engine) {
    same(rt, (engine.calls(), engine.failures()), (0, 0));
    same(rt, engine.write(0, 3, &[12, 13, 14]), Ok(3));
    let mut buf = [9; 4];
    same(rt, engine.read(0, 2, &mut buf), Ok(4));
    same(rt, buf, [3, 12, 13, 14]);
    let (device, outside) = (EngineFault::Device, EngineFault::Outside);
    same(rt, engine.write(1, 3, &[2, 3, 4]), Err(device));
    same(rt, engine.write(2, 3, &[2]), Err(outside));
    same(rt, engine.read(2, 3, &mut buf), Err(outside));
    same(rt, engine.write(0, u64::MAX, &[1]), Err(outside));
    same(rt, (engine.calls(), engine.failures()), (6, 4));
}

// A file of bytes in memory, which are known; what is written behind them is let go.
#[derive(Drop)]
struct Kept {
    bytes: [u8; 4],
}

impl Positioned for Kept {
    ghost use Rattle.std.specs.Prelude.{None, true};

    ghost view = { λ a. record { is_sound = true; is_known = true; bytes = a.bytes; name = None } };

    fn read_at(&mut self, buf: &mut [u8], offset: u64) -> io::Result<usize> {
        let rest = &self.bytes[self.bytes.len().min(offset as usize)..];
        let count = buf.len().min(rest.len());
        buf[..count].copy_from_slice(&rest[..count]);
        Ok(count)
    }

    fn write_at(&mut self, buf: &[u8], offset: u64) -> io::Result<usize> {
        let start = self.bytes.len().min(offset as usize);
        let count = buf.len().min(self.bytes.len() - start);
        self.bytes[start..start + count].copy_from_slice(&buf[..count]);
        Ok(buf.len())
    }
}

#[test]
fn files_of_another_kind(rt: HostRuntime) -> Result<(), Fail> {
    assert_files(&rt, &mut two_files(rt.alloc())?);
    let mut file = Kept { bytes: [0; 4] };
    let mut buf = [9; 4];
    same(
        &rt,
        write_whole(&mut file, &mut Room::none(), 1, &[1, 2]),
        Ok(2),
    );
    same(
        &rt,
        read_whole(&mut file, &mut Room::none(), 1, &mut buf),
        Ok(3),
    );
    same(&rt, buf, [1, 2, 0, 9]);
    Ok(())
}

// A file that is direct, and refuses its first calls as a device refuses places of memory.
#[derive(Drop)]
struct Particular {
    bytes: [u8; 8],
    refusals: u64,
}

impl Particular {
    fn take(&mut self) -> io::Result<()> {
        if self.refusals == 0 {
            return Ok(());
        }
        self.refusals -= 1;
        Err(io::Error::from(ErrorKind::InvalidInput))
    }
}

impl Positioned for Particular {
    ghost use Rattle.jr_io_blocks.specs.Parts.{unknown_view};

    ghost view = { λ _. unknown_view };

    fn read_at(&mut self, buf: &mut [u8], offset: u64) -> io::Result<usize> {
        self.take()?;
        let start = offset.min(8) as usize;
        let count = buf.len().min(8 - start);
        buf[..count].copy_from_slice(&self.bytes[start..start + count]);
        Ok(count)
    }

    fn write_at(&mut self, buf: &[u8], offset: u64) -> io::Result<usize> {
        self.take()?;
        let start = offset.min(8) as usize;
        let count = buf.len().min(8 - start);
        self.bytes[start..start + count].copy_from_slice(&buf[..count]);
        Ok(count)
    }

    fn is_direct(&self) -> bool {
        true
    }
}

// A file that refuses so many calls first.
fn refusing(refusals: u64) -> Particular {
    Particular {
        bytes: [1, 2, 3, 4, 5, 6, 7, 8],
        refusals,
    }
}

#[test]
fn places_of_a_room_are_tried_in_turn(rt: HostRuntime) -> Result<(), Fail> {
    let mut room = Room::new(rt.alloc(), 4, None)?;
    let mut file = refusing(256);
    let mut buf = [9; 4];
    same(&rt, read_whole(&mut file, &mut room, 2, &mut buf), Ok(4));
    same(&rt, (buf, file.refusals), ([3, 4, 5, 6], 0));
    same(&rt, write_whole(&mut file, &mut room, 1, &[12, 13]), Ok(2));
    same(&rt, file.bytes, [1, 12, 13, 4, 5, 6, 7, 8]);
    let failed = Err(EngineFault::Device);
    let mut fresh = Room::new(rt.alloc(), 4, None)?;
    let mut file = refusing(257);
    same(
        &rt,
        write_whole(&mut file, &mut fresh, 1, &[12, 13]),
        failed,
    );
    // (a place that was taken is kept, and none is tried in its stead)
    let mut file = refusing(2);
    same(&rt, write_whole(&mut file, &mut room, 1, &[12, 13]), failed);
    same(&rt, file.refusals, 1);
    same(
        &rt,
        read_whole(&mut refusing(1), &mut Room::none(), 1, &mut buf),
        failed,
    );
    Ok(())
}

#[test]
fn faults_in_words(rt: HostRuntime) -> Result<(), Fail> {
    let (file, memory) = (FileFault::File(3), FileFault::Memory);
    let said = format!(in rt.alloc(); "{file}, {memory}")?;
    same(&rt, said.as_str(), "cannot open the files, out of memory");
    Ok(())
}
