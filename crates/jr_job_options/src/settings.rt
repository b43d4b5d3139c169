ghost use Rattle.std.specs.Prelude.{◌≡◌, ◌≤◌, IfOk, IfSome, option_copied};
ghost use Rattle.std.specs.Option.{option_map};
ghost use Rattle.jr_job_options.specs.Settings.{IsInRange, setting_number_range, setting_of, valued_setting, choice_setting};
ghost use Rattle.jr_job_options.specs.Settings.{flag_setting, number_made, number_setting, text_setting, form_setting, name_setting};

use crate::faults::JobFault;
use crate::keys::{ChoiceKey, FlagKey, Key, NumberKey, TextKey};
use crate::values::{block_sizes, flag, interval, number_within, pattern, splits};
use crate::words;
use jr_model::{
    EngineKind, IoType, MOST_CLONES, MOST_DEPTH, MOST_PASSES, MOST_VERIFIERS, Pattern, VerifyKind,
};
use jr_plan::Split;
use jr_text::Line;

/// What one option line says.
#[derive(Clone, Copy)]
pub enum Setting {
    IoType(IoType),
    /// The percentage of reads, whichever way the line says it.
    ReadPercent(u8),
    BlockSizes(u32, u32),
    Splits(Option<Split>, Option<Split>),
    Size(u64),
    Offset(u64),
    OffsetStep(u64),
    Clones(u32),
    Passes(u32),
    Depth(u32),
    HasMap(bool),
    Seed(u64),
    Stonewall(bool),
    Engine(EngineKind),
    Verify(VerifyKind),
    Pattern(Pattern),
    Interval(u32),
    Backlog(u32),
    Verifiers(u32),
    Fatal(bool),
    Checks(bool),
    Declines(bool),
    Direct(bool),
    /// Nothing that a clone's numbers show: a name of a file, or an option without effect.
    Nothing,
}

// What a line says, or its fault.
#[tactic(auto, unfolding(crate::specs::Settings::setting_of))]
pub(crate) fn setting_of(line: &Line) -> Result<Setting, JobFault>
    ensures value { result ≡ setting_of line.now }
    ensures range { IfOk result IsInRange }
{
    match words::key(line.key()) {
        Some(key) => valued_setting(key, line.value(), line.number()),
        None => Err(JobFault::Unknown(line.number())),
    }
}

// What the value of a key sets; only a flag may have none.
fn valued_setting(key: Key, value: Option<&str>, line: u32) -> Result<Setting, JobFault>
    ensures value { result ≡ valued_setting key (option_copied value.entry) line }
    ensures range { IfOk result IsInRange }
{
    if let Key::Flag(key) = key {
        return match flag(value) {
            Some(flag) => Ok(flag_setting(key, flag)),
            None => Err(JobFault::BadValue(line)),
        };
    }
    let Some(text) = value else {
        return Err(JobFault::BadValue(line));
    };
    match key {
        Key::Choice(key) => choice_setting(key, text).ok_or(JobFault::BadValue(line)),
        Key::Number(key) => number_setting(key, text).ok_or(JobFault::BadValue(line)),
        Key::Text(key) => text_setting(key, text, line),
        Key::Flag(_) => Ok(Setting::Nothing),
    }
}

fn choice_setting(key: ChoiceKey, text: &str) -> Option<Setting>
    ensures value { result ≡ choice_setting key text.now }
    ensures range { IfSome result IsInRange }
{
    match key {
        ChoiceKey::IoType => Some(Setting::IoType(words::io_type(text)?)),
        ChoiceKey::Engine => Some(Setting::Engine(words::engine(text)?)),
        ChoiceKey::Verify => Some(Setting::Verify(words::verify_kind(text)?)),
        ChoiceKey::SubmitMode => words::is_submit_mode(text).then_some(Setting::Nothing),
    }
}

fn flag_setting(key: FlagKey, flag: bool) -> Setting
    ensures value { result ≡ flag_setting key flag }
    ensures range { IsInRange result }
{
    match key {
        FlagKey::NoMap => Setting::HasMap(!flag),
        FlagKey::Stonewall => Setting::Stonewall(flag),
        FlagKey::Fatal => Setting::Fatal(flag),
        FlagKey::Checks => Setting::Checks(flag),
        FlagKey::Serialize => Setting::Declines(!flag),
        FlagKey::Direct => Setting::Direct(flag),
        FlagKey::Unused => Setting::Nothing,
    }
}

// The least and the greatest number that a key may have.
fn range(key: NumberKey) -> (u64, u64)
    ensures { result ≡ setting_number_range key }
{
    match key {
        NumberKey::ReadPercent | NumberKey::WritePercent => (0, 100),
        NumberKey::Size | NumberKey::Offset | NumberKey::OffsetStep | NumberKey::Seed => (
            0,
            u64::MAX,
        ),
        NumberKey::Clones => (1, MOST_CLONES as u64),
        NumberKey::Passes => (1, MOST_PASSES as u64),
        NumberKey::Depth => (1, MOST_DEPTH as u64),
        NumberKey::Backlog => (0, 0xffff_ffff),
        NumberKey::Verifiers => (0, MOST_VERIFIERS as u64),
    }
}

fn number_setting(key: NumberKey, text: &str) -> Option<Setting>
    ensures value { result ≡ number_setting key text.now }
    ensures range { IfSome result IsInRange }
{
    let (least, most) = range(key);
    let n = number_within(text, least, most)?;
    Some(number_made(key, n))
}

fn number_made(key: NumberKey, n: u64) -> Setting
    requires least { (setting_number_range key).0 ≤ n }
    requires most { n ≤ (setting_number_range key).1 }
    ensures value { result ≡ number_made key n }
    ensures range { IsInRange result }
{
    match key {
        NumberKey::ReadPercent => Setting::ReadPercent(n as u8),
        NumberKey::WritePercent => Setting::ReadPercent(100 - n as u8),
        NumberKey::Size => Setting::Size(n),
        NumberKey::Offset => Setting::Offset(n),
        NumberKey::OffsetStep => Setting::OffsetStep(n),
        NumberKey::Clones => Setting::Clones(n as u32),
        NumberKey::Passes => Setting::Passes(n as u32),
        NumberKey::Depth => Setting::Depth(n as u32),
        NumberKey::Seed => Setting::Seed(n),
        NumberKey::Backlog => Setting::Backlog(n as u32),
        NumberKey::Verifiers => Setting::Verifiers(n as u32),
    }
}

fn text_setting(key: TextKey, text: &str, line: u32) -> Result<Setting, JobFault>
    ensures value { result ≡ text_setting key text.now line }
    ensures range { IfOk result IsInRange }
{
    if key == TextKey::Description {
        return Ok(Setting::Nothing);
    }
    if text.is_empty() {
        return Err(JobFault::BadValue(line));
    }
    form_setting(key, text, line)
}

// What a text that isn't empty sets.
fn form_setting(key: TextKey, text: &str, line: u32) -> Result<Setting, JobFault>
    ensures value { result ≡ form_setting key text.now line }
    ensures range { IfOk result IsInRange }
{
    match key {
        TextKey::BlockSizes => match block_sizes(text) {
            Some((reads, writes)) => Ok(Setting::BlockSizes(reads, writes)),
            None => Err(JobFault::BadValue(line)),
        },
        TextKey::Splits => match splits(text) {
            Some((reads, writes)) => Ok(Setting::Splits(reads, writes)),
            None => Err(JobFault::BadSplit(line)),
        },
        TextKey::Pattern => match pattern(text) {
            Some(pattern) => Ok(Setting::Pattern(pattern)),
            None => Err(JobFault::BadValue(line)),
        },
        TextKey::Interval => match interval(text) {
            Some(interval) => Ok(Setting::Interval(interval)),
            None => Err(JobFault::BadValue(line)),
        },
        TextKey::FileName | TextKey::Directory => name_setting(text, line),
        TextKey::Description => Ok(Setting::Nothing),
    }
}

// A name of a file: several are listed with colons between them.
fn name_setting(text: &str, line: u32) -> Result<Setting, JobFault>
    ensures value { result ≡ name_setting text.now line }
    ensures range { IfOk result IsInRange }
{
    match text.split_once(':') {
        Some(_) => Err(JobFault::SeveralFiles(line)),
        None => Ok(Setting::Nothing),
    }
}
