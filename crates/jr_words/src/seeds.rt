ghost use Rattle.std.specs.Prelude.{◌≡◌};
ghost use Rattle.jr_model.specs.Words.{seed_of_pass};

// How far the seeds of two clones lie apart.
const CLONE_STEP: u64 = 1_000_003;

/// What a clone's words are seeded by in a pass, from the job's `randseed` and the clone's number over
/// the run. The sum wraps at 2^64.
pub fn pass_seed(randseed: u64, clone: u32, pass: u32) -> u64
    ensures { result ≡ seed_of_pass randseed clone pass }
{
    randseed
        .wrapping_add(CLONE_STEP * u64::from(clone))
        .wrapping_add(u64::from(pass))
}
