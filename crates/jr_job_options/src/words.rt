ghost use Rattle.std.specs.Prelude.{◌≡◌, is_some};
ghost use Rattle.jr_job_options.specs.OptionWords.{meaning_of, shown_words, keys, io_types, engines, verify_kinds, submit_modes};

use crate::keys::{ChoiceKey, FlagKey, Key, NumberKey, TextKey};
use jr_model::{EngineKind, IoType, VerifyKind};

const KEYS: [(&str, Key); 36] = [
    ("rw", Key::Choice(ChoiceKey::IoType)),
    ("readwrite", Key::Choice(ChoiceKey::IoType)),
    ("rwmixread", Key::Number(NumberKey::ReadPercent)),
    ("rwmixwrite", Key::Number(NumberKey::WritePercent)),
    ("bs", Key::Text(TextKey::BlockSizes)),
    ("blocksize", Key::Text(TextKey::BlockSizes)),
    ("bssplit", Key::Text(TextKey::Splits)),
    ("size", Key::Number(NumberKey::Size)),
    ("offset", Key::Number(NumberKey::Offset)),
    ("offset_increment", Key::Number(NumberKey::OffsetStep)),
    ("numjobs", Key::Number(NumberKey::Clones)),
    ("loops", Key::Number(NumberKey::Passes)),
    ("iodepth", Key::Number(NumberKey::Depth)),
    ("norandommap", Key::Flag(FlagKey::NoMap)),
    ("randseed", Key::Number(NumberKey::Seed)),
    ("filename", Key::Text(TextKey::FileName)),
    ("directory", Key::Text(TextKey::Directory)),
    ("stonewall", Key::Flag(FlagKey::Stonewall)),
    ("wait_for_previous", Key::Flag(FlagKey::Stonewall)),
    ("serialize_overlap", Key::Flag(FlagKey::Serialize)),
    ("ioengine", Key::Choice(ChoiceKey::Engine)),
    ("verify", Key::Choice(ChoiceKey::Verify)),
    ("verify_pattern", Key::Text(TextKey::Pattern)),
    ("verify_interval", Key::Text(TextKey::Interval)),
    ("verify_backlog", Key::Number(NumberKey::Backlog)),
    ("verify_async", Key::Number(NumberKey::Verifiers)),
    ("verify_fatal", Key::Flag(FlagKey::Fatal)),
    ("do_verify", Key::Flag(FlagKey::Checks)),
    ("direct", Key::Flag(FlagKey::Direct)),
    ("buffered", Key::Flag(FlagKey::Unused)),
    ("thread", Key::Flag(FlagKey::Unused)),
    ("invalidate", Key::Flag(FlagKey::Unused)),
    ("randrepeat", Key::Flag(FlagKey::Unused)),
    ("group_reporting", Key::Flag(FlagKey::Unused)),
    ("io_submit_mode", Key::Choice(ChoiceKey::SubmitMode)),
    ("description", Key::Text(TextKey::Description)),
];

const IO_TYPES: [(&str, IoType); 7] = [
    ("read", IoType::Read),
    ("write", IoType::Write),
    ("randread", IoType::RandRead),
    ("randwrite", IoType::RandWrite),
    ("rw", IoType::ReadWrite),
    ("readwrite", IoType::ReadWrite),
    ("randrw", IoType::RandRw),
];

const ENGINES: [(&str, EngineKind); 7] = [
    ("sync", EngineKind::File),
    ("psync", EngineKind::File),
    ("libaio", EngineKind::File),
    ("io_uring", EngineKind::File),
    ("posixaio", EngineKind::File),
    ("memory", EngineKind::Memory),
    ("null", EngineKind::Null),
];

const VERIFY_KINDS: [(&str, VerifyKind); 5] = [
    ("0", VerifyKind::Plain),
    ("pattern", VerifyKind::Pattern),
    ("md5", VerifyKind::Md5),
    ("sha1", VerifyKind::Sha1),
    ("sha256", VerifyKind::Sha256),
];

const SUBMIT_MODES: [(&str, bool); 2] = [("inline", false), ("offload", true)];

pub(crate) fn key(word: &str) -> Option<Key>
    ensures { result ≡ meaning_of keys word.now }
{
    meaning(&KEYS, word)
}

pub(crate) fn io_type(word: &str) -> Option<IoType>
    ensures { result ≡ meaning_of io_types word.now }
{
    meaning(&IO_TYPES, word)
}

pub(crate) fn engine(word: &str) -> Option<EngineKind>
    ensures { result ≡ meaning_of engines word.now }
{
    meaning(&ENGINES, word)
}

pub(crate) fn verify_kind(word: &str) -> Option<VerifyKind>
    ensures { result ≡ meaning_of verify_kinds word.now }
{
    meaning(&VERIFY_KINDS, word)
}

pub(crate) fn is_submit_mode(word: &str) -> bool
    ensures { result ≡ is_some (meaning_of submit_modes word.now) }
{
    meaning(&SUBMIT_MODES, word).is_some()
}

// What a table says of a word.
fn meaning<T: Copy>(words: &[(&'static str, T)], word: &str) -> Option<T>
    ensures { result ≡ meaning_of (shown_words words.now) word.now }
{
    for (entry, meaning) in words {
        if *entry == word {
            return Some(*meaning);
        }
    }
    None
}
