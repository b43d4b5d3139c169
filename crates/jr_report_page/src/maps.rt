ghost use Rattle.std.specs.Prelude.{◌≡◌, ◌++◌, decimal, flat_map, OnOk, string_bytes};
ghost use Rattle.jr_model.specs.Report.{field};
ghost use Rattle.jr_report_page.specs.Cells.{at_text, bad_fields, cell_text, fate_word, first_text, sign_of, tip_text, use_text};

use crate::cells::Cell;
use crate::rows::push_what;
use jr_desk_totals::Bad;
use jr_report_maps::Fate;
use std::alloc::AllocError;

// All states of a cell, the worst first.
const FATES: [Fate; 8] = [
    Fate::Bad,
    Fate::Fault,
    Fate::Void,
    Fate::Unchecked,
    Fate::Skipped,
    Fate::Good,
    Fate::Read,
    Fate::Untouched,
];

// A map's row has so many cells, and a cell is so many units wide and high.
const COLUMNS: u64 = 64;

const UNITS: u64 = 10;

// What the maps are drawn with, a state each, and what it means.
pub(crate) fn push_legend(page: &mut String) -> Result<(), AllocError> {
    page.push_str("<svg class=\"shapes\" width=\"0\" height=\"0\"><defs>\n")?;
    for fate in FATES {
        push_shape(page, fate)?;
    }
    page.push_str("</defs></svg>\n<ul class=\"legend\">\n")?;
    push_meanings(page)?;
    page.push_str("</ul>\n")
}

fn push_meanings(page: &mut String) -> Result<(), AllocError> {
    for fate in FATES {
        push_meaning(page, fate)?;
    }
    Ok(())
}

fn push_shape(page: &mut String, fate: Fate) -> Result<(), AllocError> {
    let sign = sign_of(fate);
    let shown = shown_sign(fate);
    write!(
        page,
        "<g id=\"{sign}\" class=\"{sign}\"><rect width=\"9.2\" height=\"9.2\" rx=\"1\"/>"
    )?;
    write!(
        page,
        "<text class=\"sign\" x=\"4.6\" y=\"7\">{shown}</text></g>\n"
    )
}

fn push_meaning(page: &mut String, fate: Fate) -> Result<(), AllocError> {
    let sign = sign_of(fate);
    let shown = shown_sign(fate);
    let word = fate_word(fate);
    let meaning = meaning_of(fate);
    write!(
        page,
        "<li><svg viewBox=\"0 0 10 10\"><use href=\"#{sign}\"/></svg><b>{shown} {word}</b>: {meaning}</li>\n"
    )
}

// What stands in a cell of it.
fn shown_sign(fate: Fate) -> &'static str {
    match fate {
        Fate::Untouched => "",
        _ => sign_of(fate),
    }
}

fn meaning_of(fate: Fate) -> &'static str {
    match fate {
        Fate::Bad => "a check found something else",
        Fate::Fault => "an I/O failed or ended short",
        Fate::Void => "a check that a write overlapped in flight: nothing is said of it",
        Fate::Unchecked => "a write that no verdict was given on",
        Fate::Skipped => "a write that is not checked: another one took some of its blocks",
        Fate::Good => "a check found what was written",
        Fate::Read => "a job read it",
        Fate::Untouched => "nothing, or nothing that has ended",
    }
}

// The map of these cells.
pub(crate) fn push_map(page: &mut String, cells: &[Cell]) -> Result<(), AllocError> {
    let height = (cells.len() as u64).div_ceil(COLUMNS).saturating_mul(UNITS);
    write!(
        page,
        "<svg class=\"map\" role=\"img\" viewBox=\"0 0 640 {height}\">\n"
    )?;
    push_cells(page, cells)?;
    page.push_str("</svg>\n")
}

fn push_cells(page: &mut String, cells: &[Cell]) -> Result<(), AllocError>
    ensures { OnOk result (string_bytes page.new ≡ string_bytes page.old ++ flat_map cell_text cells.now) }
{
    for cell in cells {
        push_cell(page, cell)?;
    }
    Ok(())
}

fn push_cell(page: &mut String, cell: &Cell) -> Result<(), AllocError>
    ensures { OnOk result (string_bytes page.new ≡ string_bytes page.old ++ cell_text cell.now) }
{
    push_use(page, sign_of(cell.fate), cell.place)?;
    page.push_str("<title>")?;
    push_tip(page, cell)?;
    page.push_str("</title></use>\n")?;
    Ok(())
}

// What is drawn, and where.
fn push_use(page: &mut String, sign: &str, place: u64) -> Result<(), AllocError>
    ensures { OnOk result (string_bytes page.new ≡ string_bytes page.old ++ use_text sign.now place) }
{
    page.push_str("<use href=\"#")?;
    page.push_str(sign)?;
    push_at(page, place)?;
    Ok(())
}

#[tactic(auto, unfolding(crate::specs::Cells::at_text))]
fn push_at(page: &mut String, place: u64) -> Result<(), AllocError>
    ensures { OnOk result (string_bytes page.new ≡ string_bytes page.old ++ at_text place) }
{
    page.push_str("\" x=\"")?;
    push_decimal(page, place % COLUMNS * UNITS)?;
    page.push_str("\" y=\"")?;
    push_decimal(page, place / COLUMNS * UNITS)?;
    page.push_str("\">")
}

// What is said of it where it is pointed at.
#[tactic(auto, unfolding(crate::specs::Cells::tip_text))]
fn push_tip(page: &mut String, cell: &Cell) -> Result<(), AllocError>
    ensures { OnOk result (string_bytes page.new ≡ string_bytes page.old ++ tip_text cell.now) }
{
    page.push_str("bytes ")?;
    push_decimal(page, cell.begin)?;
    page.push_str(" to ")?;
    push_decimal(page, cell.end.saturating_sub(1))?;
    page.push_str(": ")?;
    page.push_str(fate_word(cell.fate))?;
    push_found(page, cell.first)
}

fn push_decimal(page: &mut String, n: u64) -> Result<(), AllocError>
    ensures { OnOk result (string_bytes page.new ≡ string_bytes page.old ++ decimal n) }
{
    write!(page, "{n}")
}

fn push_found(page: &mut String, first: Option<Bad>) -> Result<(), AllocError>
    ensures { OnOk result (string_bytes page.new ≡ string_bytes page.old ++ first_text first) }
{
    let Some(bad) = first else {
        return Ok(());
    };
    page.push_str(":")?;
    push_fields(page, &bad)
}

// The bad verdict as its line in a report has it.
fn push_fields(page: &mut String, bad: &Bad) -> Result<(), AllocError>
    ensures { OnOk result (string_bytes page.new ≡ string_bytes page.old ++ bad_fields bad.now) }
{
    push_field(page, "clone", u64::from(bad.write.clone))?;
    push_field(page, "pass", u64::from(bad.write.pass))?;
    push_field(page, "number", u64::from(bad.write.number))?;
    push_field(page, "offset", bad.piece.offset)?;
    push_field(page, "length", u64::from(bad.piece.len))?;
    page.push_str(" what=")?;
    push_what(page, bad.what)
}

fn push_field(page: &mut String, key: &str, n: u64) -> Result<(), AllocError>
    ensures { OnOk result (string_bytes page.new ≡ string_bytes page.old ++ field key.now n) }
{
    write!(page, " {key}={n}")
}

fn sign_of(fate: Fate) -> &'static str
    ensures { result.now ≡ sign_of fate }
{
    match fate {
        Fate::Untouched => "n",
        Fate::Read => "r",
        Fate::Good => "g",
        Fate::Skipped => "s",
        Fate::Unchecked => "u",
        Fate::Void => "v",
        Fate::Fault => "F",
        Fate::Bad => "B",
    }
}

fn fate_word(fate: Fate) -> &'static str
    ensures { result.now ≡ fate_word fate }
{
    match fate {
        Fate::Untouched => "untouched",
        Fate::Read => "read only",
        Fate::Good => "good",
        Fate::Skipped => "skipped",
        Fate::Unchecked => "unchecked",
        Fate::Void => "void",
        Fate::Fault => "fault",
        Fate::Bad => "bad",
    }
}
