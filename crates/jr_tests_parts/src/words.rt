use crate::asserts::same;
use jr_words::{WordList, WordSource, Words, pass_seed};

// The first eight words of three seeds, as a program made of the authors' reference code prints them:
// `splitmix64.c` for the state and `xoshiro256plusplus.c` for the words (prng.di.unimi.it).
const OF_SEED_0: [u64; 8] = [
    0x5317_5d61_490b_23df,
    0x61da_6f3d_c380_d507,
    0x5c0f_df91_ec9a_7bfc,
    0x02ee_bf8c_3bbe_5e1a,
    0x7eca_04eb_af4a_5eea,
    0x0543_c377_57f0_8d9a,
    0xdb74_90c7_5ab5_026e,
    0xd873_43e6_464b_c959,
];

const OF_SEED_1: [u64; 8] = [
    0xcfc5_d07f_6f03_c29b,
    0xbf42_4132_963f_e08d,
    0x19a3_7d57_57aa_f520,
    0xbf08_119f_05cd_56d6,
    0x2f47_184b_8618_6fa4,
    0x9729_9fca_e720_2345,
    0xfca3_c795_08f4_1507,
    0x85fe_a5c9_0363_f221,
];

const OF_LAST_SEED: [u64; 8] = [
    0x56cc_f8ce_948e_27b2,
    0xe685_8843_2e5a_5b90,
    0xe3e9_b5a4_8119_ca8b,
    0x460f_1949_5532_ae73,
    0xa7d6_2040_ea92_63e1,
    0x66f1_fb2a_c940_2c14,
    0xe243_b47d_e8a7_3f68,
    0x7c93_fdab_4c7b_3dff,
];

// The next eight words of any source.
fn next_eight<S: WordSource>(source: &mut S) -> [u64; 8] {
    let mut words = [0; 8];
    for word in words.iter_mut() {
        *word = source.next();
    }
    words
}

#[test]
fn words_are_those_of_the_reference_code(rt: HostRuntime) {
    same(&rt, next_eight(&mut Words::new(0)), OF_SEED_0);
    same(&rt, next_eight(&mut Words::new(1)), OF_SEED_1);
    same(&rt, next_eight(&mut Words::new(u64::MAX)), OF_LAST_SEED);
    same(&rt, Words::new(1).next(), OF_SEED_1[0]);
}

#[test]
fn fill_gives_the_next_words_low_byte_first(rt: HostRuntime) {
    let mut words = Words::new(0);
    words.fill(&mut []);
    let mut buffer = [0; 16];
    words.fill(&mut buffer);
    let expected = [
        0xdf, 0x23, 0x0b, 0x49, 0x61, 0x5d, 0x17, 0x53, 0x07, 0xd5, 0x80, 0xc3, 0x3d, 0x6f, 0xda,
        0x61,
    ];
    same(&rt, buffer, expected);
    same(&rt, words.next(), OF_SEED_0[2]);
}

#[test]
fn a_list_gives_its_words_and_then_zeros(rt: HostRuntime) {
    let mut list = WordList {
        rest: &[7, u64::MAX],
    };
    same(&rt, next_eight(&mut list), [7, u64::MAX, 0, 0, 0, 0, 0, 0]);
    assert!(rt; list.rest.is_empty());
}

#[test]
fn the_seed_of_a_pass_counts_clone_and_pass(rt: HostRuntime) {
    same(&rt, pass_seed(1, 0, 0), 1);
    same(&rt, pass_seed(1, 0, 999), 1000);
    same(&rt, pass_seed(1, 2, 3), 2_000_010);
    // -1 + 2 * 1000003 + 3, modulo 2^64
    same(&rt, pass_seed(u64::MAX, 2, 3), 2_000_008);
}
