// What the system says of memory, in its files.
use crate::machine::Outlet;
use crate::memory::{MemoryState, history_bytes, is_watched};
use jr_plan::Plan;
use std::alloc::Global;
use std::fs;
use std::fs::{File, Files};
use std::io::{Read, Seek, SeekFrom};

const MIB: u64 = 1024 * 1024;

// A history of fewer MiB is no news.
const WORTH_TELLING: u64 = 64;

// No system has so many groups above one another.
const MOST_GROUPS: u32 = 64;

// How the groups of a system that limit memory name what they say.
#[derive(Clone, Copy)]
struct GroupNames {
    // The folder of the group above all others.
    root: &'static str,
    // The file of a group's limit.
    limit: &'static str,
    // The file that says how much is used.
    used: &'static str,
    // Of what is used the pages of files, which are given back if others need them.
    pages: [&'static str; 2],
}

// Control groups of the second version, and of the first.
const SECOND: GroupNames = GroupNames {
    root: "/sys/fs/cgroup",
    limit: "memory.max",
    used: "memory.current",
    pages: ["active_file", "inactive_file"],
};

const FIRST: GroupNames = GroupNames {
    root: "/sys/fs/cgroup/memory",
    limit: "memory.limit_in_bytes",
    used: "memory.usage_in_bytes",
    pages: ["total_active_file", "total_inactive_file"],
};

/// The system's files that say how much memory the program has and can get, open.
#[derive(Drop)]
pub struct MemoryFiles {
    status: File,
    all: File,
    // The most addresses that the program may have, if they are limited.
    most_addresses: Option<u64>,
    groups: Vec<GroupFiles>,
}

// Those of a group with a limit of its own.
#[derive(Drop)]
struct GroupFiles {
    limit: u64,
    used: File,
    counts: File,
    pages: [&'static str; 2],
}

impl MemoryFiles {
    /// Opens them; none where the system hasn't got them.
    pub fn open<R: Files<File = File> + AllocGlobal>(rt: &R) -> Option<MemoryFiles> {
        let limits = text_at(rt, "/proc/self/limits")?;
        MemoryFiles::open_with(rt, number_in(limits.as_str(), "Max address space"))
    }

    // Those of a program that may have so many addresses.
    fn open_with<R: Files<File = File> + AllocGlobal>(
        rt: &R,
        most_addresses: Option<u64>,
    ) -> Option<MemoryFiles> {
        Some(MemoryFiles {
            status: fs::open(rt, "/proc/self/status").ok()?,
            all: fs::open(rt, "/proc/meminfo").ok()?,
            most_addresses,
            groups: groups_of(rt)?,
        })
    }

    /// What they say now; nothing where they can't be read.
    pub fn now(&mut self, alloc: Global) -> Option<MemoryState> {
        let status = text_of(alloc, &mut self.status)?;
        let addresses = match self.most_addresses {
            Some(most) => Some(most.saturating_sub(kib_in(status.as_str(), "VmSize:")?)),
            None => None,
        };
        Some(MemoryState {
            used: kib_in(status.as_str(), "RssAnon:")?,
            free: self.free(alloc)?,
            addresses,
        })
    }

    // How much more the program can get, of the system and of its groups.
    fn free(&mut self, alloc: Global) -> Option<u64> {
        let all = text_of(alloc, &mut self.all)?;
        let free = kib_in(all.as_str(), "MemAvailable:")?;
        Some(least_left(alloc, self.groups.as_mut_slice(), free))
    }
}

// How much more each of these groups can get, or this much if that is less.
fn least_left(alloc: Global, groups: &mut [GroupFiles], free: u64) -> u64 {
    let mut least = free;
    for group in groups.iter_mut() {
        if let Some(left) = group.left(alloc) {
            least = least.min(left);
        }
    }
    least
}

impl GroupFiles {
    // Those of a group, if it has a limit.
    fn open<R: Files<File = File> + AllocGlobal>(
        rt: &R,
        names: &GroupNames,
        path: &str,
    ) -> Option<GroupFiles> {
        Some(GroupFiles {
            limit: limit_of(rt, names, path)?,
            used: group_file(rt, names, path, names.used)?,
            counts: group_file(rt, names, path, "memory.stat")?,
            pages: names.pages,
        })
    }

    // How much more the group can get. Pages of files are given back.
    fn left(&mut self, alloc: Global) -> Option<u64> {
        let used = first_number(text_of(alloc, &mut self.used)?.as_str())?;
        let counts = text_of(alloc, &mut self.counts)?;
        let [active, inactive] = self.pages;
        let active = number_in(counts.as_str(), active).unwrap_or(0);
        let inactive = number_in(counts.as_str(), inactive).unwrap_or(0);
        let pages = active.saturating_add(inactive);
        Some(self.limit.saturating_sub(used.saturating_sub(pages)))
    }
}

fn text_at<R: Files<File = File> + AllocGlobal>(rt: &R, path: &str) -> Option<String> {
    fs::read_to_string(rt, path).ok()
}

// All that a file says now.
fn text_of(alloc: Global, file: &mut File) -> Option<String> {
    file.seek(SeekFrom::Start(0)).ok()?;
    let mut text = String::new(alloc);
    file.read_to_string(&mut text).ok()?;
    Some(text)
}

// The limit of a group, if it has one.
fn limit_of<R: Files<File = File> + AllocGlobal>(
    rt: &R,
    names: &GroupNames,
    path: &str,
) -> Option<u64> {
    let path = group_path(rt.alloc(), names, path, names.limit)?;
    let text = text_at(rt, path.as_str())?;
    first_number(text.as_str())
}

// A file of a group, open.
fn group_file<R: Files<File = File> + AllocGlobal>(
    rt: &R,
    names: &GroupNames,
    path: &str,
    name: &str,
) -> Option<File> {
    let path = group_path(rt.alloc(), names, path, name)?;
    fs::open(rt, path.as_str()).ok()
}

fn group_path(alloc: Global, names: &GroupNames, path: &str, name: &str) -> Option<String> {
    format!(in alloc; "{}{path}/{name}", names.root).ok()
}

// The groups with a limit that the program is in; none if there is no memory for them.
fn groups_of<R: Files<File = File> + AllocGlobal>(rt: &R) -> Option<Vec<GroupFiles>> {
    let mut groups = Vec::new(rt.alloc());
    let Some(text) = text_at(rt, "/proc/self/cgroup") else {
        return Some(groups);
    };
    add_all(rt, &mut groups, text.as_str())?;
    Some(groups)
}

// Adds those of all lines.
fn add_all<R: Files<File = File> + AllocGlobal>(
    rt: &R,
    groups: &mut Vec<GroupFiles>,
    text: &str,
) -> Option<()> {
    for line in text.split('\n') {
        add_groups(rt, groups, line)?;
    }
    Some(())
}

// Adds those of a line.
fn add_groups<R: Files<File = File> + AllocGlobal>(
    rt: &R,
    groups: &mut Vec<GroupFiles>,
    line: &str,
) -> Option<()> {
    match group_in(line) {
        Some((names, path)) => add_upwards(rt, groups, &names, path),
        None => Some(()),
    }
}

// The path of the group that a line says, behind a number and the controllers, where memory is one of these.
fn group_in(line: &str) -> Option<(GroupNames, &str)> {
    let (_, rest) = line.split_once(':')?;
    match rest.split_once(':')? {
        ("", path) => Some((SECOND, path)),
        ("memory", path) => Some((FIRST, path)),
        _ => None,
    }
}

// Adds a group, and those that it is in.
fn add_upwards<R: Files<File = File> + AllocGlobal>(
    rt: &R,
    groups: &mut Vec<GroupFiles>,
    names: &GroupNames,
    path: &str,
) -> Option<()> {
    let mut path = path;
    for _ in 0..MOST_GROUPS {
        if let Some(group) = GroupFiles::open(rt, names, path) {
            groups.push(group).ok()?;
        }
        let Some((above, _)) = path.rsplit_once('/') else {
            return Some(());
        };
        path = above;
    }
    Some(())
}

// The bytes that a line of this name says in KiB.
fn kib_in(text: &str, name: &str) -> Option<u64> {
    Some(number_in(text, name)?.saturating_mul(1024))
}

// The number that a line of this name says.
fn number_in(text: &str, name: &str) -> Option<u64> {
    for line in text.split('\n') {
        if let Some(rest) = line.strip_prefix(name) {
            return first_number(rest);
        }
    }
    None
}

// The number that a text begins with, behind blanks.
fn first_number(text: &str) -> Option<u64> {
    let word = text.split_whitespace().next()?;
    word.parse::<u64>().ok()
}

/// Says on standard error how much memory the history of a run of the plan with so many workers may take: of a run if that may be too much, and
/// of a plan that isn't run if it is much.
pub fn tell_history<R: Outlet>(rt: &R, plan: &Plan, workers: u32, is_run: bool) {
    let Some(state) = memory_now(rt) else {
        return;
    };
    let (history, left) = (history_bytes(plan, workers), state.left());
    let (most, free) = (history.div_ceil(MIB), left / MIB);
    if !is_run && most >= WORTH_TELLING {
        let _ = eprintln!(rt;
            "fiorun: note: a run keeps a history of up to {most} MiB, and {free} MiB of memory are free"
        );
    } else if is_run && is_watched(history, left) {
        let _ = eprintln!(rt;
            "fiorun: note: the history may take {most} MiB, and {free} MiB of memory are free: the run stops if they don't suffice (--for and --repeat run it in rounds)"
        );
    }
}

// What the system says of memory now.
fn memory_now<R: Files<File = File> + AllocGlobal>(rt: &R) -> Option<MemoryState> {
    let mut files = MemoryFiles::open(rt)?;
    files.now(rt.alloc())
}
