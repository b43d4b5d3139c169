use crate::asserts::same;
use jr_job_options::{JobFault, JobOptions, Shape};
use jr_text::sections;
use std::alloc::Global;
use std::test::Fail;

// The options that the first section of a text sets.
fn options(alloc: Global, text: &str) -> Result<JobOptions, JobFault> {
    match sections(alloc, text.as_bytes()) {
        Ok(sections) => match sections.first() {
            Some(section) => JobOptions::new().with_lines(section.lines()),
            None => Err(JobFault::NoJob),
        },
        Err(_) => Err(JobFault::Memory),
    }
}

fn shape(alloc: Global, text: &str) -> Result<Shape, JobFault> {
    match options(alloc, text) {
        Ok(options) => options.shape(1),
        Err(fault) => Err(fault),
    }
}

// How many hundredths of a text's first job are reads.
fn read_percent(alloc: Global, text: &str) -> Result<u8, JobFault> {
    match options(alloc, text) {
        Ok(options) => Ok(options.read_percent),
        Err(fault) => Err(fault),
    }
}

#[test]
fn the_last_mix_counts(rt: HostRuntime) {
    let alloc = rt.alloc();
    same(&rt, read_percent(alloc, "[a]\n"), Ok(50));
    let text = "[a]\nrwmixread=70\nrwmixwrite=40\n";
    same(&rt, read_percent(alloc, text), Ok(60));
    let text = "[a]\nrwmixwrite=40\nrwmixread=70\n";
    same(&rt, read_percent(alloc, text), Ok(70));
}

// Whether a text's first job declines to wait for what it overlaps.
fn declines(alloc: Global, text: &str) -> Result<bool, JobFault> {
    match options(alloc, text) {
        Ok(options) => Ok(options.declines),
        Err(fault) => Err(fault),
    }
}

#[test]
fn overlap_is_declined_with_0_alone(rt: HostRuntime) {
    let alloc = rt.alloc();
    same(&rt, declines(alloc, "[a]\n"), Ok(false));
    same(&rt, declines(alloc, "[a]\nserialize_overlap=0\n"), Ok(true));
    same(
        &rt,
        declines(alloc, "[a]\nserialize_overlap=1\n"),
        Ok(false),
    );
    same(&rt, declines(alloc, "[a]\nserialize_overlap\n"), Ok(false));
    let text = "[a]\nserialize_overlap=1\nserialize_overlap=0\n";
    same(&rt, declines(alloc, text), Ok(true));
    let text = "[a]\nserialize_overlap=no\n";
    same(&rt, declines(alloc, text), Err(JobFault::BadValue(2)));
}

#[test]
fn splits_and_cells(rt: HostRuntime) -> Result<(), Fail> {
    let shape = shape(
        rt.alloc(),
        "[a]\nrw=randrw\nsize=64k\nbssplit=4k/50:1k/:32k/,8k\n",
    )?;
    same(&rt, shape.cell, 1024);
    same(&rt, shape.cells, 64);
    same(&rt, shape.reads.size_of(75), 32768);
    same(&rt, shape.writes.size_of(75), 8192);
    Ok(())
}
