//! Changed frames of what the client and the mirror say, and pieces, as another program has them.

/// The frames of `MIRRORED`, each with changes: as `-2`, two bytes less; as `7=0a`, this byte at place 7, and
/// as many behind it as there are; as `+00`, this byte more. `ff*8` is a byte eight times, and `_` stands between
/// that and others. Behind `=>` stands what becomes of it, read as a packet, and as a frame of a network: 0
/// where it is read, and written as it is, else the number of the refusal.
pub(super) static MIRROR_CHANGES: &str = "
    Copy => 0 0
    Copy 23=01 31=07 35=0f01 47=c8 54=0201 63=07 67=40 70=0100 \
        78=0201c3be152040e14fb38e763fd3278eb1bde4ffdb31ca76424148f61c6e192f2341 \
        118=0101fffff7fffffffffe_ff*7_fe_ff*6_7fff7f_ff*7 => 0 0
    Copy 20=ff*8 31=03 35=010201ab 41=0100 45=010000 53=0f4240_ff*8 67=01 71=01 \
        79=0056ccf8ce948e27b2e68588432e5a5b90e3e9b5a48119ca8b460f19495532ae73 127=00 => 0 0
    Copy 79=01 127=00 => 0 0
    Copy 7=09 11=08 => 0 0
    Copy 7=09 11=08 23=01 31=07 35=0f01 47=c8 54=0201 63=07 67=40 70=0100 \
        78=0201c3be152040e14fb38e763fd3278eb1bde4ffdb31ca76424148f61c6e192f2341 \
        118=0101fffff7fffffffffe_ff*7_fe_ff*6_7fff7f_ff*7 => 0 0
    Copy 7=09 11=08 20=ff*8 31=03 35=010201ab 41=0100 45=010000 53=0f4240_ff*8 67=01 71=01 \
        79=0056ccf8ce948e27b2e68588432e5a5b90e3e9b5a48119ca8b460f19495532ae73 127=00 => 0 0
    Copy 7=09 11=08 79=01 127=00 => 0 0
    CopyOk 23=01 27=00 31=00 => 0 0
    CopyOk => 0 0
    CopyOk 19=01 23=01 => 0 0
    CopyOk 16=ff*8 27=03 31=01 => 0 0
    CopyOk 7=08 11=09 23=01 27=00 31=00 => 0 0
    CopyOk 7=08 11=09 => 0 0
    CopyOk 7=08 11=09 19=01 23=01 => 0 0
    CopyOk 7=08 11=09 16=ff*8 27=03 31=01 => 0 0
    Fetch => 0 0
    Fetch 23=02 => 0 0
    Fetch 20=ffffffff => 0 0
    Fetch 7=09 11=08 => 0 0
    Fetch 7=09 11=08 23=02 => 0 0
    Fetch 7=09 11=08 20=ffffffff => 0 0
    Granted 20=00000001 => 0 0
    Granted 20=00000002 => 0 0
    Granted => 0 0
    Granted 7=08 11=09 20=00000001 => 0 0
    Granted 7=08 11=09 20=00000002 => 0 0
    Granted 7=08 11=09 => 0 0
    Copy 7=00 11=08 => 0 0
    Fetch 7=09 => 0 0
    Granted 7=00 11=09 20=00000007 => 0 0
    CopyOk 7=07 11=00 23=01 27=00 31=00 => 0 0
    Fetch 3=03 7=09 11=00 => 0 0
    Copy 127=03 => 0 0
    Copy -1 => 40 40
    Copy +00 => 45 45
    Copy -1 15=87 => 43 43
    Copy 15=89 +00 => 43 43
    Copy 7=0a => 43 43
    Copy 11=0a => 43 43
    Copy 8=ffffffff => 43 43
    CopyOk -1 => 40 40
    CopyOk +00 => 45 45
    CopyOk -1 15=0f => 43 43
    CopyOk 15=11 +00 => 43 43
    CopyOk 7=0a => 43 43
    CopyOk 11=0a => 43 43
    CopyOk 8=ffffffff => 43 43
    Fetch -1 => 40 40
    Fetch +00 => 45 45
    Fetch -1 15=07 => 43 43
    Fetch 15=09 +00 => 43 43
    Fetch 7=0a => 43 43
    Fetch 11=0a => 43 43
    Fetch 8=ffffffff => 43 43
    Granted -1 20=000000 => 40 40
    Granted 20=00000001 +00 => 45 45
    Granted -1 15=07 20=000000 => 43 43
    Granted 15=09 20=00000001 +00 => 43 43
    Granted 7=0a 20=00000001 => 43 43
    Granted 11=0a 20=00000001 => 43 43
    Granted 8=ffffffff 20=00000001 => 43 43
    Fetch 23=00 => 43 43
    Fetch 19=01 23=00 => 43 43
    Fetch 16=ff*8 => 43 43
    Granted 20=00000000 => 43 43
    Granted 19=0100000000 => 43 43
    Granted 16=ffffffff => 43 43
    CopyOk 23=00 => 43 43
    CopyOk 27=08 => 43 43
    CopyOk 31=10 => 43 43
    CopyOk 24=ffffffff => 43 43
    Copy 19=33 => 43 43
    Copy 27=00 => 43 43
    Copy 31=08 => 43 43
    Copy 35=10 => 43 43
    Copy 36=03 => 43 43
    Copy 119=01 => 43 43
    Copy 127=04 => 43 43
    Fetch 3=16 => 42 42
    Fetch 3=11 => 42 43
    Fetch 3=00 => 42 42
    Fetch 3=ff => 42 42
    Fetch 3=11 14=0421 16=0000000000000000 +01_00*18_040100000000_78*1024 => 42 43
    Fetch 3=11 14=0421 16=1200000000000000 +01_00*18_040100000000_78*1024 => 42 43
    Fetch 3=11 14=0421 16=1300000000000000 +01_00*18_040100000000_78*1024 => 42 43
    Fetch 3=11 14=0421 16=1400000000000000 +01_00*18_040100000000_78*1024 => 42 43
    Fetch 3=11 14=0421 16=1500000000000000 +01_00*18_040100000000_78*1024 => 42 43
";

/// Pieces, as changes of a Fetch: the two of a Jobs of run 1 with a text of 2,000 letters, and the two of a
/// Verify of run 3 and attempt 7 with one of 1,009. None is a packet.
pub(super) static PIECES: &str = "
    Fetch 3=11 11=00 14=04210100000000000000 +01_00*18_07d8_00*11_01_78*1016 => 42 0
    Fetch 3=11 11=00 14=03f90100000000000000 +01_00*18_07d800000400_78*984 => 42 0
    Fetch 3=11 11=02 14=04210b00000000000000 +03_00*7_07_00*10_0401_00*11_03_00*7_07_79*1008 => 42 0
    Fetch 3=11 11=02 14=00220b00000000000000 +03_00*7_07_00*10_04010000040079 => 42 0
";
