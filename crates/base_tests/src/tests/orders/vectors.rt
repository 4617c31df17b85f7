//! Values that were computed apart from this program, by another reading of the rules.

use fc_base::{Kind, Verify};

/// A seed, and the first words of its generator.
pub static WORDS: [(u64, [u64; 8]); 6] = [
    (
        0,
        [
            0x5317_5d61_490b_23df,
            0x61da_6f3d_c380_d507,
            0x5c0f_df91_ec9a_7bfc,
            0x02ee_bf8c_3bbe_5e1a,
            0x7eca_04eb_af4a_5eea,
            0x0543_c377_57f0_8d9a,
            0xdb74_90c7_5ab5_026e,
            0xd873_43e6_464b_c959,
        ],
    ),
    (
        1,
        [
            0xcfc5_d07f_6f03_c29b,
            0xbf42_4132_963f_e08d,
            0x19a3_7d57_57aa_f520,
            0xbf08_119f_05cd_56d6,
            0x2f47_184b_8618_6fa4,
            0x9729_9fca_e720_2345,
            0xfca3_c795_08f4_1507,
            0x85fe_a5c9_0363_f221,
        ],
    ),
    (
        2,
        [
            0xc3e6_7584_b5c4_fc2a,
            0x8983_7ec3_9e40_f2c8,
            0xa6bb_0b29_87ac_94cd,
            0x4b31_e5fb_dd21_0a72,
            0x7dad_9d2b_709a_04f7,
            0xc593_b0c1_cc06_3418,
            0x5655_42e1_2607_44a6,
            0xbdbc_fe1e_0dbd_de17,
        ],
    ),
    (
        42,
        [
            0xd076_4d4f_4476_689f,
            0x519e_4174_576f_3791,
            0xfbe0_7cfb_0c24_ed8c,
            0xb37d_9f60_0cd8_35b8,
            0xcb23_1c38_7484_6a73,
            0x968d_9f00_4e50_de7d,
            0x2017_18ff_221a_3556,
            0x9ae9_4e07_0ed8_cb46,
        ],
    ),
    (
        4_294_967_296,
        [
            0x6658_10f2_ba1d_6351,
            0x4be2_ebc6_0ad0_dae2,
            0x6e94_302c_72b7_99d9,
            0x22bb_55c9_d95f_765d,
            0xf68b_e9ae_aa93_46bf,
            0xebcb_7b3c_42f2_39e4,
            0x1e56_52f3_e1d8_2c63,
            0x03ba_1d93_36ae_ac4c,
        ],
    ),
    (
        u64::MAX,
        [
            0x56cc_f8ce_948e_27b2,
            0xe685_8843_2e5a_5b90,
            0xe3e9_b5a4_8119_ca8b,
            0x460f_1949_5532_ae73,
            0xa7d6_2040_ea92_63e1,
            0x66f1_fb2a_c940_2c14,
            0xe243_b47d_e8a7_3f68,
            0x7c93_fdab_4c7b_3dff,
        ],
    ),
];

/// A seed, a number of writes of a random order, and the place after them.
pub static PLACES: [(u64, u64, [u64; 4]); 5] = [
    (
        1,
        0,
        [
            0xcfc5_d07f_6f03_c29b,
            0xbf42_4132_963f_e08d,
            0x19a3_7d57_57aa_f520,
            0xbf08_119f_05cd_56d6,
        ],
    ),
    (
        1,
        1,
        [
            0xbf42_4132_963f_e08d,
            0x19a3_7d57_57aa_f520,
            0xbf08_119f_05cd_56d6,
            0x2f47_184b_8618_6fa4,
        ],
    ),
    (
        1,
        5,
        [
            0x9729_9fca_e720_2345,
            0xfca3_c795_08f4_1507,
            0x85fe_a5c9_0363_f221,
            0x18ba_e5b3_0d33_4bd0,
        ],
    ),
    (
        42,
        1000,
        [
            0xd438_4621_4ce2_d08d,
            0xd022_9de0_7708_eb62,
            0x4a87_5d48_eb20_6e8b,
            0xfc83_4359_7d8d_d650,
        ],
    ),
    (
        7,
        999_999,
        [
            0x0699_fc34_8ddd_7152,
            0x2390_ec50_5874_5b32,
            0xcf78_fb42_9ab3_3a87,
            0x7772_d179_ef83_4945,
        ],
    ),
];

/// An order, its seed, how many blocks it has, and the blocks of its first writes.
pub static BLOCKS: [(Kind, u64, u64, &[u8]); 12] = [
    (
        Kind::Sequential,
        1,
        4,
        b"\x00\x01\x02\x03\x00\x01\x02\x03\x00\x01",
    ),
    (
        Kind::Sequential,
        42,
        7,
        b"\x00\x01\x02\x03\x04\x05\x06\x00\x01\x02\x03\x04\x05\x06\x00\x01\x02\x03\x04\x05\x06\x00",
    ),
    (Kind::Sequential, u64::MAX, 1, b"\x00\x00\x00"),
    (
        Kind::Sequential,
        5,
        16,
        b"\x00\x01\x02\x03\x04\x05\x06\x07\x08\x09\x0a\x0b\x0c\x0d\x0e\x0f\x00\x01\x02\x03\x04\x05\x06\x07\x08\x09\x0a\x0b\x0c\x0d\x0e\x0f\x00\x01\x02\x03\x04\x05\x06\x07",
    ),
    (
        Kind::RandomMap,
        1,
        4,
        b"\x03\x02\x00\x01\x00\x02\x01\x03\x00\x02",
    ),
    (
        Kind::RandomMap,
        42,
        7,
        b"\x03\x05\x00\x04\x02\x01\x06\x02\x03\x05\x06\x04\x00\x01\x03\x04\x01\x02\x05\x06\x00\x02",
    ),
    (Kind::RandomMap, u64::MAX, 1, b"\x00\x00\x00"),
    (
        Kind::RandomMap,
        5,
        16,
        b"\x0e\x00\x0d\x07\x0c\x0a\x03\x06\x02\x05\x01\x04\x09\x0f\x08\x0b\x00\x05\x04\x03\x09\x06\x0b\x0d\x07\x01\x02\x08\x0a\x0c\x0f\x0e\x00\x08\x0c\x0f\x05\x03\x02\x09",
    ),
    (
        Kind::RandomFree,
        1,
        4,
        b"\x03\x01\x00\x02\x00\x01\x03\x01\x00\x02",
    ),
    (
        Kind::RandomFree,
        42,
        7,
        b"\x03\x00\x05\x03\x02\x00\x00\x02\x03\x04\x04\x01\x05\x06\x03\x03\x04\x05\x03\x01\x01\x02",
    ),
    (Kind::RandomFree, u64::MAX, 1, b"\x00\x00\x00"),
    (
        Kind::RandomFree,
        5,
        16,
        b"\x0e\x06\x0f\x0e\x0f\x0a\x0d\x0a\x0a\x07\x01\x01\x03\x0c\x09\x00\x00\x0b\x0c\x07\x05\x04\x05\x02\x0f\x0e\x04\x03\x0d\x0c\x0e\x08\x00\x0a\x0a\x09\x05\x05\x08\x0a",
    ),
];

/// A write, and the first bytes of its block: its run, server and job, what it writes, the block size, its
/// number, its block.
pub type Front = ((u64, u32, u32), Verify, u8, u64, u64, u32, &'static [u8]);

pub static FRONTS: [Front; 5] = [
    (
        (1, 0, 0),
        Verify::Stamp,
        0x00,
        512,
        5,
        1,
        b"\x00\x00\x00\x00\x00\x00\x00\x01\x00\x00\x00\x00\x00\x00\x00\x00\x00\x00\x00\x00\
          \x00\x00\x00\x05\x00\x00\x00\x00\x00\x00\x00\x01\x00\x00\x00\x00\x05\x06\x07\x08",
    ),
    (
        (u64::MAX, 7, 15),
        Verify::Stamp,
        0x00,
        4096,
        999_999,
        65_535,
        b"\xff\xff\xff\xff\xff\xff\xff\xff\x00\x00\x00\x07\x00\x00\x00\x0f\x00\x00\x00\x00\
          \x00\x0f\x42\x3f\x00\x00\x00\x00\x00\x00\xff\xff\x00\x00\x00\x00\x3f\x40\x41\x42",
    ),
    (
        (3, 1, 2),
        Verify::Stamp,
        0x00,
        65_536,
        255,
        0,
        b"\x00\x00\x00\x00\x00\x00\x00\x03\x00\x00\x00\x01\x00\x00\x00\x02\x00\x00\x00\x00\
          \x00\x00\x00\xff\x00\x00\x00\x00\x00\x00\x00\x00\x00\x00\x00\x00\xff\x00\x01\x02",
    ),
    (
        (1, 0, 0),
        Verify::Pattern,
        0xa5,
        1024,
        0,
        0,
        b"\xa5\xa5\xa5\xa5\xa5\xa5\xa5\xa5\xa5\xa5\xa5\xa5\xa5\xa5\xa5\xa5\xa5\xa5\xa5\xa5\
          \xa5\xa5\xa5\xa5\xa5\xa5\xa5\xa5\xa5\xa5\xa5\xa5\xa5\xa5\xa5\xa5\xa5\xa5\xa5\xa5",
    ),
    (
        (9, 2, 3),
        Verify::Stamp,
        0x00,
        1536,
        256,
        77,
        b"\x00\x00\x00\x00\x00\x00\x00\x09\x00\x00\x00\x02\x00\x00\x00\x03\x00\x00\x00\x00\
          \x00\x00\x01\x00\x00\x00\x00\x00\x00\x00\x00\x4d\x00\x00\x00\x00\x00\x01\x02\x03",
    ),
];
