//! The limits, as numbers: what the pages tell is what the code has.

ghost use Rattle.std.specs.Prelude.{◌≡◌};
ghost use Rattle.fc_base.specs.declared.limits.TheConstants.{MAX_TEXT, MAX_JOBS, MAX_SERVERS, MAX_WORKERS, MAX_SEATS, MAX_BLOCK_SIZE};
ghost use Rattle.fc_base.specs.declared.limits.TheConstants.{MAX_BLOCKS, MAX_WRITES, MAX_DEPTH, MAX_WINDOW, MAX_LISTED, MAX_GENERATION};
ghost use Rattle.messages.specs.declared.limits.TheConstants.{CLIENT_NUMBER, MIRROR_NUMBER, MAX_NODES, MAX_BODY};
ghost use Rattle.messages.specs.declared.limits.TheConstants.{MAX_REPORT, CHUNK_LIMIT, FRAME_LIMIT, PIECE_HEAD};
ghost use Rattle.messages.specs.declared.limits.TheConstants.{MAX_FRAME, MAX_FRAMES, MAX_FRAMED, MAX_TAGS};
ghost use Rattle.verify_state.specs.declared.table.TheConstants.{KEPT_LIMIT};
ghost use Rattle.net_script.specs.declared.running.TheConstants.{MAX_SCRIPT};
ghost use Rattle.diagnosis.specs.declared.difference.TheConstants.{FEW_BITS, FEW_BYTES};
ghost use Rattle.targets.specs.declared.drive_check.TheConstants.{MAX_STATE};
ghost use Rattle.filters.specs.declared.record.TheConstants.{MAX_BODY as MAX_RECORD};

/// Each limit of the libraries is the number that the pages have for it: other contracts name it, and
/// would move with it. Nothing runs.
pub fn limits_are_as_documented()
    ensures text { MAX_TEXT ≡ 16384 }
    ensures jobs { MAX_JOBS ≡ 16 }
    ensures block_size { MAX_BLOCK_SIZE ≡ 65536 }
    ensures blocks { MAX_BLOCKS ≡ 65536 }
    ensures writes { MAX_WRITES ≡ 1000000 }
    ensures depth { MAX_DEPTH ≡ 64 }
    ensures window { MAX_WINDOW ≡ 256 }
    ensures listed { MAX_LISTED ≡ 32 }
    ensures servers { MAX_SERVERS ≡ 8 }
    ensures workers { MAX_WORKERS ≡ 16 }
    ensures seats { MAX_SEATS ≡ 17 }
    ensures client { CLIENT_NUMBER ≡ 8 }
    ensures mirror { MIRROR_NUMBER ≡ 9 }
    ensures nodes { MAX_NODES ≡ 10 }
    ensures generation { MAX_GENERATION ≡ 4294967295 }
    ensures kept { KEPT_LIMIT ≡ 1024 }
    ensures body { MAX_BODY ≡ 16400 }
    ensures report { MAX_REPORT ≡ 169 }
    ensures chunk { CHUNK_LIMIT ≡ 1024 }
    ensures behind_header { FRAME_LIMIT ≡ 1057 }
    ensures before_chunk { PIECE_HEAD ≡ 49 }
    ensures frame { MAX_FRAME ≡ 1073 }
    ensures frames { MAX_FRAMES ≡ 17 }
    ensures framed { MAX_FRAMED ≡ 17233 }
    ensures tags { MAX_TAGS ≡ 128 }
    ensures script { MAX_SCRIPT ≡ 1048576 }
    ensures few_bytes { FEW_BYTES ≡ 16 }
    ensures few_bits { FEW_BITS ≡ 16 }
    ensures state { MAX_STATE ≡ 8192 }
    ensures filter_record { MAX_RECORD ≡ 1114112 }
{}
