use crate::asserts::same;
use jr_text::{Line, Section, sections};
use std::alloc::{AllocError, Global};
use std::process::Abort;
use std::test::Fail;

const JOBS: &str =
    "; two jobs\n[global]\nbs=4k ; x\n\n[a] of the night\r\n\tstonewall # y=1\nsize = 1m\n[global]\n=5\n[a]\nk=a=b";

const SHOWN_JOBS: &str =
    "2 [global]\n3 bs=4k\n5 [a]\n6 stonewall\n7 size=1m\n8 [global]\n9 =5\n10 [a]\n11 k=a=b\n";

// Each section and each option on a line of its own, with its number.
fn shown(alloc: Global, sections: &[Section]) -> Result<String, AllocError> {
    let mut text = String::new(alloc);
    for section in sections {
        show(&mut text, section)?;
    }
    Ok(text)
}

fn show(text: &mut String, section: &Section) -> Result<(), AllocError> {
    write!(text, "{} [{}]\n", section.line_number(), section.name())?;
    for option in section.lines() {
        match option.value() {
            Some(value) => write!(text, "{} {}={value}\n", option.number(), option.key())?,
            None => write!(text, "{} {}\n", option.number(), option.key())?,
        }
    }
    Ok(())
}

// Is this what is read of the text?
fn assert_read(rt: &(impl AllocGlobal + Abort), text: &str, want: &str) -> Result<(), Fail> {
    let sections = sections(rt.alloc(), text.as_bytes())?;
    let read = shown(rt.alloc(), sections.as_slice())?;
    same(rt, (text, read.as_str()), (text, want));
    Ok(())
}

#[test]
fn reads_sections_with_their_lines(rt: HostRuntime) -> Result<(), Fail> {
    assert_read(&rt, "", "")?;
    assert_read(&rt, "\n\n", "")?;
    assert_read(&rt, "[global]", "1 [global]\n")?;
    assert_read(
        &rt,
        "\t[ x[y] ]\r\nb\u{e4}r=\u{e4}\t",
        "1 [ x[y]\n2 b\u{e4}r=\u{e4}\n",
    )?;
    assert_read(&rt, JOBS, SHOWN_JOBS)
}

// A section with two lines, the second without a value.
fn made(alloc: Global) -> Result<Vec<Section>, Fail> {
    let mut lines = Vec::new(alloc);
    let value = String::from_str(alloc, "1m")?;
    lines.push(Line::new(4, String::from_str(alloc, "size")?, Some(value)))?;
    lines.push(Line::new(6, String::from_str(alloc, "stonewall")?, None))?;
    let section = Section::new(String::from_str(alloc, "a")?, 3, lines);
    Ok(vec![in alloc; section]?)
}

#[test]
fn a_section_is_made_and_taken_apart(rt: HostRuntime) -> Result<(), Fail> {
    let sections = made(rt.alloc())?;
    let text = shown(rt.alloc(), sections.as_slice())?;
    same(&rt, text.as_str(), "3 [a]\n4 size=1m\n6 stonewall\n");
    for section in sections {
        assert_parts(&rt, section);
    }
    Ok(())
}

// Is it made of these parts?
fn assert_parts(rt: &impl Abort, section: Section) {
    let (name, line, mut lines) = section.into_parts();
    same(rt, (name.as_str(), line, lines.len()), ("a", 3, 2));
    let Some(last) = lines.pop() else {
        panic!(rt; "no line")
    };
    let (line, key, value) = last.into_parts();
    same(
        rt,
        (line, key.as_str(), value.is_none()),
        (6, "stonewall", true),
    );
}
