// The tables of what is refused: docs/USING.md prints them, and checks/repository/keys.py compares the two.

use crate::near::is_near;
use crate::rows::{Fate, Row, Told, Way};
use jr_text::Line;

// A line that simply goes.
const DROPPED: Fate = Fate::Dropped(Way::Out);

// Keys that aren't read: when a job runs, and how much it does.
static RUN_KEYS: [Row; 16] = [
    (
        "atomic=0 blocksize_unaligned=0 bs_is_seq_rand=0 bs_unaligned=0 buffer_compress_percentage=0 \
        continue_on_error=0 create_only=0 dedupe_percentage=0 exitall=0 exitall_on_error=0 fdatasync=0 file_append=0 \
        fill_device=0 fill_fs=0 flow=0 fsync=0 hipri=0 kb_base=1024 nr_files=1 nrfiles=1 random_distribution=random \
        rate_iops=0 sg_write_mode=write startdelay=0 sync=0 sync=none thinktime=0 time_based=0 trim_backlog=0 \
        trim_percentage=0 trim_verify_zero=0 verify_backlog_batch=0 verify_offset=0 verify_only=0 zero_buffers=0 \
        zonemode=none",
        "it is as without the line",
        "nothing",
        DROPPED,
    ),
    (
        "name",
        "a job's name is its heading",
        "[NAME] above its lines",
        DROPPED,
    ),
    (
        "runtime timeout",
        "a run ends by what it has done",
        "--for=TIME before the job file",
        Fate::Dropped(Way::Time),
    ),
    (
        "time_based",
        "a run ends by what it has done",
        "--for=TIME before the job file",
        DROPPED,
    ),
    ("ramp_time", "nothing is measured", "nothing", DROPPED),
    (
        "startdelay",
        "jobs begin at once, or after others",
        "stonewall",
        Fate::Nearly(Way::Out, "what runs at once"),
    ),
    (
        "exitall exitall_on_error exit_what",
        "each job runs to its end",
        "nothing",
        Fate::Yours("when a job ends another"),
    ),
    (
        "wait_for",
        "a job waits for all above it, or for none",
        "stonewall",
        Fate::Same(Way::Wait),
    ),
    (
        "flow flow_*",
        "jobs run at once, each as fast as it can",
        "nothing",
        Fate::Nearly(Way::Out, "the ratio of their I/O"),
    ),
    ("new_group", "it only groups reports", "nothing", DROPPED),
    (
        "rate rate_* ratemin ratecycle thinktime thinktime_*",
        "I/O goes out as fast as it comes back",
        "nothing",
        Fate::Nearly(Way::Out, "the pace"),
    ),
    (
        "latency_* max_latency",
        "no time is taken",
        "iodepth, as deep as is wanted",
        Fate::Yours("the depth that a latency allows"),
    ),
    (
        "iodepth_batch* iodepth_low",
        "each I/O goes out by itself",
        "nothing",
        DROPPED,
    ),
    (
        "continue_on_error=none continue_on_error=verify error_dump",
        "a bad block ends no job, and each is told",
        "nothing",
        DROPPED,
    ),
    (
        "continue_on_error ignore_error",
        "a clone ends at its first I/O that fails",
        "nothing",
        Fate::Yours("what follows an I/O that fails"),
    ),
    (
        "exec_prerun exec_postrun",
        "a job runs no commands",
        "the commands around fiorun",
        Fate::Yours("what the command does"),
    ),
];

// Keys that aren't read: the size and the blocks of a job.
static REGION_KEYS: [Row; 17] = [
    (
        "io_size io_limit",
        "size and loops say how much is done",
        "size, or loops where it is a multiple of it",
        Fate::Nearly(Way::Amount, "which blocks, if they are random"),
    ),
    (
        "number_ios",
        "size and loops say how much is done",
        "size, as large as that many blocks",
        Fate::Nearly(Way::Count, "which blocks, if they are random"),
    ),
    (
        "fill_device fill_fs",
        "sizes are numbers",
        "size, as large as the device",
        Fate::Nearly(Way::Out, "what is beyond the size that is given"),
    ),
    (
        "filesize",
        "size says which part of a file is used",
        "size",
        Fate::Same(Way::FileSize),
    ),
    (
        "file_append",
        "a job begins at its offset",
        "offset, as large as the file",
        Fate::Yours("where the blocks go"),
    ),
    (
        "bsrange blocksize_range",
        "sizes come from lists",
        "bssplit",
        Fate::Nearly(Way::Range, "sizes that are no power of two between both"),
    ),
    (
        "bs_unaligned blocksize_unaligned ba blockalign offset_align",
        "places are multiples of the least size",
        "nothing",
        Fate::Nearly(Way::Out, "blocks at other places"),
    ),
    (
        "bs_is_seq_rand",
        "bs is for reads and writes",
        "two jobs",
        Fate::Yours("which sizes are random"),
    ),
    (
        "random_distribution",
        "all blocks are drawn alike",
        "a job with an offset for each zone",
        Fate::Nearly(Way::Out, "how often each block comes"),
    ),
    (
        "percentage_random percentage_sequential",
        "blocks are random, or in order",
        "two jobs",
        Fate::Nearly(Way::Out, "the other order"),
    ),
    (
        "rw_sequencer rwmixcycle",
        "each I/O is drawn by itself",
        "nothing",
        Fate::Nearly(Way::Out, "runs of one kind"),
    ),
    (
        "zonemode=strided zonesize zonerange zoneskip",
        "a job works on one region",
        "a job with offset and size for each zone",
        Fate::Nearly(Way::Out, "the gaps between zones"),
    ),
    (
        "zonemode zonecapacity zone_* max_open_zones job_max_open_zones read_beyond_wp ignore_zone_limits",
        "zones of a device aren't known",
        "nothing",
        Fate::Yours("in which order zones may be written"),
    ),
    (
        "random_generator allrandrepeat softrandommap",
        "there is one generator and one map",
        "nothing, or another randseed",
        DROPPED,
    ),
    (
        "fileoffset",
        "it is another word for offset",
        "offset",
        Fate::Same(Way::Number("offset")),
    ),
    (
        "kb_base",
        "k is always 1024",
        "numbers in bytes",
        Fate::Yours("what k is in each number"),
    ),
    ("unit_base", "k is always 1024", "nothing", DROPPED),
];

// Keys that aren't read: files.
static FILES_KEYS: [Row; 14] = [
    (
        "nrfiles nr_files",
        "a clone works on one file",
        "numjobs, for a clone with each file",
        Fate::Yours("the other files"),
    ),
    (
        "openfiles file_service_type unique_filename",
        "a clone works on one file",
        "nothing",
        DROPPED,
    ),
    (
        "filename_format",
        "a clone's file is job.clone.0",
        "filename, or nothing",
        Fate::Nearly(Way::Out, "the names of files"),
    ),
    (
        "opendir",
        "a clone works on one file",
        "a job with filename for each file",
        Fate::Yours("the files that are there"),
    ),
    (
        "lockfile",
        "overlapping I/O is kept apart",
        "nothing",
        DROPPED,
    ),
    (
        "fsync fdatasync",
        "files are synced before their checks and at the end",
        "--sync-every=N before the job file",
        Fate::Nearly(Way::Out, "syncs between writes"),
    ),
    (
        "sync_file_range write_barrier",
        "files are synced before their checks and at the end",
        "nothing",
        Fate::Nearly(Way::Out, "syncs between writes"),
    ),
    (
        "end_fsync fsync_on_close",
        "files are synced before their checks and at the end",
        "nothing",
        DROPPED,
    ),
    (
        "sync",
        "files are synced before their checks and at the end",
        "direct=1",
        Fate::Nearly(Way::Line("direct=1"), "a sync of each write"),
    ),
    (
        "atomic",
        "writes are the system's",
        "direct=1",
        Fate::Nearly(
            Way::Line("direct=1"),
            "writes that are done whole or not at all",
        ),
    ),
    (
        "create_only",
        "files are made, and then used",
        "nothing",
        Fate::Yours("a job that only makes its file"),
    ),
    (
        "fallocate create_on_open create_fsync create_serialize allow_file_create overwrite pre_read unlink \
        unlink_each_loop",
        "files are made and extended before the run, and stay",
        "nothing",
        DROPPED,
    ),
    (
        "fadvise_hint write_hint",
        "the system is given no hints",
        "nothing",
        Fate::Nearly(Way::Out, "the hints"),
    ),
    (
        "allow_mounted_write",
        "it is a word of the command line",
        "--allow-mounted-write before the job file",
        DROPPED,
    ),
];

// Keys that aren't read: what is written and checked.
static CHECKS_KEYS: [Row; 12] = [
    (
        "verify_only",
        "a job that only reads checks what it reads",
        "rw=read, with verify as it was written",
        Fate::Nearly(Way::Line("rw=read"), "which write a block is of"),
    ),
    (
        "verify_state_save verify_dump",
        "the report names each bad block",
        "nothing",
        DROPPED,
    ),
    (
        "verify_state_load",
        "a job that reads checks all that it reads",
        "a smaller size",
        Fate::Nearly(Way::Out, "which blocks weren't written"),
    ),
    (
        "verify_offset",
        "the header begins its block",
        "nothing",
        Fate::Nearly(Way::Out, "where the header is"),
    ),
    (
        "verifysort verifysort_nr experimental_verify",
        "blocks are checked in the order of their writes",
        "nothing",
        DROPPED,
    ),
    (
        "verify_async_cpus",
        "threads run on any processor",
        "taskset around fiorun",
        Fate::Nearly(Way::Out, "which processors"),
    ),
    (
        "verify_backlog_batch",
        "a round checks all of its writes",
        "a smaller verify_backlog",
        Fate::Nearly(Way::Out, "rounds that overlap"),
    ),
    (
        "trim_*",
        "nothing is trimmed",
        "nothing",
        Fate::Yours("what is read after a trim"),
    ),
    (
        "zero_buffers",
        "each block has contents of its own",
        "verify_pattern=0",
        Fate::Same(Way::Line("verify_pattern=0")),
    ),
    (
        "refill_buffers scramble_buffers",
        "each block has contents of its own",
        "nothing",
        DROPPED,
    ),
    (
        "buffer_pattern",
        "what is written is the pattern's",
        "verify_pattern",
        Fate::Same(Way::Pattern),
    ),
    (
        "buffer_compress_* dedupe_*",
        "each block has contents of its own",
        "nothing",
        Fate::Yours("blocks that compress, or are alike"),
    ),
];

// Keys that aren't read: the system, measuring, and other texts.
static SYSTEM_KEYS: [Row; 11] = [
    (
        "cpus_allowed_policy mem iomem mem_align iomem_align lockmem hugepage-size",
        "memory and threads are the program's own",
        "nothing",
        DROPPED,
    ),
    (
        "cpus_allowed cpumask numa_* nice prio prioclass ioscheduler cgroup cgroup_* uid gid",
        "how a program is run isn't the job's",
        "taskset, numactl, ionice and others around fiorun",
        Fate::Nearly(Way::Out, "where and as whom it runs"),
    ),
    (
        "write_bw_log write_lat_log write_iops_log write_hist_log log_* bwavgtime iopsavgtime disk_util stats \
        percentile_list clat_percentiles lat_percentiles slat_percentiles block_error_percentiles significant_figures \
        per_job_logs unified_rw_reporting steadystate_* ss_*",
        "nothing is measured",
        "nothing",
        DROPPED,
    ),
    (
        "steadystate ss",
        "a run ends by what it has done",
        "--for=TIME before the job file",
        Fate::Nearly(Way::Out, "its end once it is steady"),
    ),
    (
        "gtod_reduce gtod_cpu clocksource disable_*",
        "no time is taken",
        "nothing",
        DROPPED,
    ),
    ("threads", "workers are threads", "nothing", DROPPED),
    (
        "include*",
        "lines of other files aren't read",
        "these lines themselves",
        Fate::Yours("what the other file says"),
    ),
    (
        "*${*",
        "variables aren't filled in",
        "the text itself",
        Fate::Yours("what the environment says"),
    ),
    (
        "profile",
        "there are no profiles",
        "the lines of the job",
        Fate::Yours("what the profile does"),
    ),
    (
        "read_iolog* replay_* merge_blktrace_*",
        "logs aren't replayed",
        "the lines of the job",
        Fate::Yours("what the log says"),
    ),
    (
        "write_iolog",
        "a run's log is its trace",
        "--trace=FILE before the job file",
        Fate::Nearly(Way::Out, "the form of the log"),
    ),
];

// Keys that aren't read: engines.
static ENGINES_KEYS: [Row; 7] = [
    ("cmdprio*", "no I/O goes before another", "nothing", DROPPED),
    (
        "hipri hipri_percentage fixedbufs registerfiles sqthread_poll sqthread_poll_cpu nonvectored uncached nowait \
        force_async cmd_type userspace_reap thp readfua writefua stream_id xnvme_*",
        "there is one way into the kernel",
        "nothing",
        Fate::Nearly(Way::Out, "this way into the kernel"),
    ),
    (
        "sg_write_mode=verify sg_write_mode=verify_bytchk_00",
        "a disk is asked to read, not to verify",
        "rw=read",
        Fate::Nearly(Way::Line("rw=read"), "the disk's own verify"),
    ),
    (
        "sg_write_mode=verify_*",
        "a disk is asked to read, not to verify",
        "rw=read and verify=pattern",
        Fate::Nearly(
            Way::Lines("rw=read", "verify=pattern"),
            "the disk's own verify",
        ),
    ),
    (
        "sg_write_mode=write_same_ndob",
        "a write has its own bytes",
        "verify_pattern=0",
        Fate::Nearly(Way::Line("verify_pattern=0"), "the command"),
    ),
    (
        "sg_write_mode",
        "a disk is asked to read and to write",
        "nothing",
        Fate::Nearly(Way::Out, "the command"),
    ),
    (
        "cpuload cpumode cpuchunks exit_on_io_done program arguments grace_time std_redirect stat_type donorname \
        inplace pool cont chunk_size object_class svcl volume brick single-instance https http_* namenode hostname \
        port hdfsdirectory chunck_size single_instance hdfs_use_direct initiator serverip direct_write_to_pmem \
        busy_wait_polling skip_bad uri protocol proto nodelay listen pingpong interface ttl window_size mss nfs_url \
        clustername clientname conf busy_poll touch_objects rbdname bindname verb gpu_dev_id gpu_dev_ids cuda_io \
        no_completion_thread",
        "its engine tests no disk by the system's calls",
        "nothing",
        Fate::Yours("what its engine tests"),
    ),
];

// Values that aren't read: words.
static WORD_VALUES: [Row; 13] = [
    (
        "*=",
        "there is no value",
        "a value after its =",
        Fate::Yours("the value"),
    ),
    (
        "*=*${*",
        "variables aren't filled in",
        "the text itself",
        Fate::Yours("what the environment says"),
    ),
    (
        "rw=*trim* readwrite=*trim*",
        "nothing is trimmed",
        "write or randwrite",
        Fate::Yours("what is read after a trim"),
    ),
    (
        "rw=*:* readwrite=*:*",
        "nothing may follow the word",
        "the word before the colon",
        Fate::Nearly(Way::Front, "gaps, steps back, or runs of one kind"),
    ),
    (
        "rw=* readwrite=*",
        "no such type",
        "read, write, randread, randwrite, rw or randrw",
        Fate::Yours("what it does"),
    ),
    (
        "ioengine=sg ioengine=io_uring_cmd ioengine=libpmem ioengine=mmap ioengine=pvsync ioengine=pvsync2 \
        ioengine=vsync ioengine=splice ioengine=solarisaio ioengine=windowsaio ioengine=xnvme",
        "no such engine",
        "psync",
        Fate::Nearly(Way::Value("psync"), "its own way into the kernel"),
    ),
    (
        "ioengine=cpp_null",
        "no such engine",
        "null",
        Fate::Same(Way::Value("null")),
    ),
    (
        "ioengine=net ioengine=netsplice ioengine=rdma ioengine=cpuio ioengine=exec ioengine=http ioengine=rados \
        ioengine=rbd ioengine=nbd ioengine=nfs ioengine=libiscsi ioengine=libhdfs ioengine=gfapi* ioengine=dfs \
        ioengine=ime_* ioengine=librpma_* ioengine=filecreate ioengine=filestat ioengine=filedelete",
        "there is no disk to test",
        "a file or device that the system shows, with psync",
        Fate::Yours("what this engine tests"),
    ),
    (
        "ioengine=e4defrag ioengine=falloc ioengine=ftruncate ioengine=mtd ioengine=libzbc ioengine=dev-dax \
        ioengine=pmemblk ioengine=libcufile",
        "it is no plain read and write",
        "psync, where reads and writes are meant",
        Fate::Yours("what this engine tests"),
    ),
    (
        "ioengine=*",
        "no such engine",
        "psync; sync, libaio, io_uring and posixaio are the same; memory; null",
        Fate::Yours("what this engine tests"),
    ),
    (
        "verify=meta",
        "no such kind",
        "md5, whose header says which block it is",
        Fate::Same(Way::Value("md5")),
    ),
    (
        "verify=null",
        "no such kind",
        "0",
        Fate::Same(Way::Value("0")),
    ),
    (
        "verify=crc* verify=xx* verify=sha* verify=pattern_hdr",
        "no such checksum",
        "md5, which finds more, or sha1 or sha256",
        Fate::Same(Way::Value("md5")),
    ),
];

// Values that aren't read: patterns, names and lists.
static NAME_VALUES: [Row; 13] = [
    (
        "verify=*",
        "no such kind",
        "0, pattern, md5, sha1 or sha256",
        Fate::Yours("what it checks"),
    ),
    (
        "verify_pattern=*%o*",
        "no offsets in patterns",
        "verify=md5, whose header has the offset",
        Fate::Yours("what it checks"),
    ),
    (
        "verify_pattern=\"*",
        "no strings",
        "the bytes in hexadecimal: 0x61626364 for \"abcd\"",
        Fate::Same(Way::Pattern),
    ),
    (
        "verify_pattern='*",
        "no files of patterns",
        "the bytes in hexadecimal after 0x",
        Fate::Yours("what the file says"),
    ),
    (
        "verify_pattern=0x* verify_pattern=0X*",
        "not 1 to 128 hexadecimal digits",
        "0xdeadbeef",
        Fate::Yours("the pattern"),
    ),
    (
        "verify_pattern=*",
        "not 0x with digits, nor one byte as 0 to 255",
        "the bytes in hexadecimal after 0x, first byte first",
        Fate::Yours("the pattern"),
    ),
    (
        "filename=* directory=*",
        "a colon lists several files",
        "a job for each file",
        Fate::Yours("which of the files"),
    ),
    (
        "io_submit_mode=*",
        "no such mode",
        "inline or offload",
        Fate::Yours("the mode"),
    ),
    (
        "*=*%*",
        "percents aren't read",
        "the number itself, sizes in bytes",
        Fate::Yours("of which size"),
    ),
    (
        "*=0x* *=0X*",
        "hexadecimal numbers aren't read",
        "decimal digits",
        Fate::Same(Way::Bytes),
    ),
    (
        "*=*kib* *=*mib* *=*gib* *=*tib* *=*pib* *=*KiB* *=*MiB* *=*GiB* *=*TiB* *=*PiB*",
        "a kib of fio is 1000 bytes, and so on",
        "the number in bytes",
        Fate::Same(Way::Bytes),
    ),
    (
        "*=*ki* *=*mi* *=*gi* *=*ti* *=*pi* *=*Ki* *=*Mi* *=*Gi* *=*Ti* *=*Pi*",
        "k to p are the powers of 1024",
        "k, m, g, t or p without an i",
        Fate::Same(Way::Bytes),
    ),
    (
        "bssplit=*",
        "not size/percent:.., in whole percents that add up to 100",
        "bssplit=4k/60:8k/40",
        Fate::Yours("the sizes"),
    ),
];

// Values that aren't read: numbers.
static NUMBER_VALUES: [Row; 14] = [
    (
        "bs=*-* blocksize=*-*",
        "ranges aren't read",
        "bssplit with the sizes that are wanted",
        Fate::Yours("the sizes"),
    ),
    (
        "bs=* blocksize=*",
        "not one to three sizes with commas between them",
        "bs=4k",
        Fate::Yours("the sizes"),
    ),
    (
        "verify_interval=*",
        "not a multiple of 512 from 0 to 16777216",
        "0 for one header in each block",
        Fate::Yours("where headers are"),
    ),
    (
        "numjobs=0 loops=0 iodepth=0",
        "there is at least one",
        "1",
        Fate::Yours("the number"),
    ),
    (
        "numjobs=*",
        "not a number from 1 to 64",
        "64 clones at most, in several runs",
        Fate::Nearly(Way::Most(64), "the clones above 64"),
    ),
    (
        "loops=*",
        "not a number from 1 to 1000",
        "1000 at most, or --repeat=N before the job file",
        Fate::Nearly(Way::Most(1000), "the passes above 1000"),
    ),
    (
        "iodepth=*",
        "not a number from 1 to 256",
        "256 at most, and more jobs",
        Fate::Nearly(Way::Most(256), "what is in flight above 256"),
    ),
    (
        "rwmixread=* rwmixwrite=*",
        "not a number from 0 to 100",
        "50 for as many reads as writes",
        Fate::Yours("the percent"),
    ),
    (
        "verify_async=*",
        "not a number from 0 to 16",
        "16 at most",
        Fate::Nearly(Way::Most(16), "the threads above 16"),
    ),
    (
        "verify_backlog=*",
        "not a number from 0 to 4294967295",
        "0 to check after all writes",
        Fate::Yours("when it is checked"),
    ),
    (
        "size=*",
        "not digits with a unit of k, m, g, t or p, below 2^64",
        "size=1g",
        Fate::Yours("the size"),
    ),
    (
        "offset=* offset_increment=*",
        "not digits with a unit of k, m, g, t or p, below 2^64",
        "a multiple of 512",
        Fate::Yours("the place"),
    ),
    (
        "randseed=*",
        "not a number below 2^64",
        "randseed=1",
        Fate::Yours("the seed"),
    ),
    (
        "*=*",
        "neither 0 nor 1",
        "0, 1, or the key alone for 1",
        Fate::Yours("which of both"),
    ),
];

// What is said of a key that no row speaks of.
const OTHER: Row = (
    "*",
    "not an option of fio",
    "one of those in docs/USING.md",
    Fate::Yours("what it means"),
);

fn run_keys() -> &'static [Row] {
    &RUN_KEYS
}

fn region_keys() -> &'static [Row] {
    &REGION_KEYS
}

fn files_keys() -> &'static [Row] {
    &FILES_KEYS
}

fn checks_keys() -> &'static [Row] {
    &CHECKS_KEYS
}

fn system_keys() -> &'static [Row] {
    &SYSTEM_KEYS
}

fn engines_keys() -> &'static [Row] {
    &ENGINES_KEYS
}

fn word_values() -> &'static [Row] {
    &WORD_VALUES
}

fn name_values() -> &'static [Row] {
    &NAME_VALUES
}

fn number_values() -> &'static [Row] {
    &NUMBER_VALUES
}

// The tables of keys. A later row speaks of what no earlier one does.
fn keys() -> [&'static [Row]; 6] {
    [
        run_keys(),
        region_keys(),
        files_keys(),
        checks_keys(),
        system_keys(),
        engines_keys(),
    ]
}

// The tables of values of keys that are read.
fn values() -> [&'static [Row]; 3] {
    [word_values(), name_values(), number_values()]
}

// The keys that are read.
static READ: [&str; 36] = [
    "rw",
    "readwrite",
    "rwmixread",
    "rwmixwrite",
    "bs",
    "blocksize",
    "bssplit",
    "size",
    "offset",
    "offset_increment",
    "numjobs",
    "loops",
    "iodepth",
    "norandommap",
    "randseed",
    "filename",
    "directory",
    "stonewall",
    "wait_for_previous",
    "serialize_overlap",
    "ioengine",
    "verify",
    "verify_pattern",
    "verify_interval",
    "verify_backlog",
    "verify_async",
    "verify_fatal",
    "do_verify",
    "direct",
    "buffered",
    "thread",
    "invalidate",
    "randrepeat",
    "group_reporting",
    "io_submit_mode",
    "description",
];

// The most bytes of a key that is compared with those that are known.
const LONGEST_KEY: usize = 40;

// Whether a word is what a mark stands for.
fn fits(mark: &str, word: &str) -> bool {
    match mark.strip_suffix('*') {
        Some(front) => match front.strip_prefix('*') {
            Some(part) => word.find(part).is_some(),
            None => word.starts_with(front),
        },
        None => mark == word,
    }
}

// Whether a mark stands for this key and value.
fn speaks_of(mark: &str, key: &str, value: &str) -> bool {
    match mark.split_once('=') {
        Some((keys, values)) => fits(keys, key) && fits(values, value),
        None => fits(mark, key),
    }
}

// The first of the rows that speaks of a key and its value.
fn row_of(rows: &[Row], key: &str, value: &str) -> Option<Row> {
    for row in rows {
        if row.0.split(' ').any(|mark| speaks_of(mark, key, value)) {
            return Some(*row);
        }
    }
    None
}

// The first row of several tables that speaks of this key with this value.
fn first_row(tables: &[&'static [Row]], key: &str, value: &str) -> Option<Row> {
    for rows in tables {
        if let Some(row) = row_of(rows, key, value) {
            return Some(row);
        }
    }
    None
}

// Whether a mark is a key alone.
fn is_key(mark: &str) -> bool {
    mark.find('*').is_none() && mark.find('=').is_none()
}

// A word that is so many letters from a key.
fn near_word(words: &[&'static str], key: &str, edits: u32) -> Option<&'static str> {
    for word in words {
        if is_near(word.as_bytes(), key.as_bytes(), edits) {
            return Some(*word);
        }
    }
    None
}

// A key that rows speak of, and that is so many letters from this one.
fn near_mark(rows: &[Row], key: &str, edits: u32) -> Option<&'static str> {
    for row in rows {
        for mark in row.0.split(' ') {
            if is_key(mark) && is_near(mark.as_bytes(), key.as_bytes(), edits) {
                return Some(mark);
            }
        }
    }
    None
}

// A key that is known to fiorun or else to fio.
fn near(tables: &[&'static [Row]], key: &str, edits: u32) -> Option<&'static str> {
    match near_word(read_keys(), key, edits) {
        Some(word) => Some(word),
        None => near_marks(tables, key, edits),
    }
}

fn near_marks(tables: &[&'static [Row]], key: &str, edits: u32) -> Option<&'static str> {
    for rows in tables {
        if let Some(word) = near_mark(rows, key, edits) {
            return Some(word);
        }
    }
    None
}

// The key that was meant by one that nothing knows: one letter from it, or two where it isn't short.
fn meant(tables: &[&'static [Row]], key: &str) -> Option<&'static str> {
    if key.len() > LONGEST_KEY || key.len() < 3 {
        return None;
    }
    match near(tables, key, 1) {
        Some(word) => Some(word),
        None if key.len() < 5 => None,
        None => near(tables, key, 2),
    }
}

fn read_keys() -> &'static [&'static str] {
    &READ
}

/// What is said of a line whose key isn't read. A key that nothing knows may have been meant as another, which is near it.
pub fn key_told(line: &Line) -> Told {
    let tables = keys();
    match first_row(&tables, line.key(), line.value().unwrap_or("1")) {
        Some(row) => Told::of(row, None),
        None => Told::of(OTHER, meant(&tables, line.key())),
    }
}

/// What is said of a line whose key is read, and whose value isn't.
pub fn value_told(line: &Line) -> Told {
    match first_row(&values(), line.key(), line.value().unwrap_or("")) {
        Some(row) => Told::of(row, None),
        None => Told::of(OTHER, None),
    }
}
