/// A key whose value is one of a few words.
#[derive(Clone, Copy)]
pub enum ChoiceKey {
    IoType,
    Engine,
    Verify,
    /// `io_submit_mode`, which has no effect.
    SubmitMode,
}

/// A key whose value is a whole number.
#[derive(Clone, Copy)]
pub enum NumberKey {
    ReadPercent,
    WritePercent,
    Size,
    Offset,
    OffsetStep,
    Clones,
    Passes,
    Depth,
    Seed,
    Backlog,
    Verifiers,
}

/// A key whose value is 0 or 1, and 1 if it has none.
#[derive(Clone, Copy)]
pub enum FlagKey {
    NoMap,
    Stonewall,
    Fatal,
    Checks,
    Serialize,
    Direct,
    /// One without effect.
    Unused,
}

/// A key whose value is a text of its own form.
#[derive(Clone, Copy, PartialEq, Eq)]
pub enum TextKey {
    BlockSizes,
    Splits,
    Pattern,
    /// `verify_interval`: a number of whole 512-byte blocks.
    Interval,
    FileName,
    Directory,
    Description,
}

/// An option of a job file. Aliases are one key.
#[derive(Clone, Copy)]
pub enum Key {
    Choice(ChoiceKey),
    Number(NumberKey),
    Flag(FlagKey),
    Text(TextKey),
}
