//! The limits of bodies, pieces and frames, and the numbers of nodes, each once: clauses and
//! definitions name them.

use fc_base::{MAX_LISTED, MAX_SERVERS, MAX_TEXT};

/// The client's number in frames. Those below it are of servers.
pub const CLIENT_NUMBER: u32 = MAX_SERVERS;

/// The mirror's number in frames, which is the greatest.
pub const MIRROR_NUMBER: u32 = CLIENT_NUMBER + 1;

/// How many nodes there are at the most: the servers, the client and the mirror.
pub const MAX_NODES: usize = MIRROR_NUMBER as usize + 1;

/// How many bytes a body has at the most: a run, an attempt and a job file.
pub const MAX_BODY: u32 = MAX_TEXT as u32 + 16;

/// How many bytes the body of a report has at the most: its numbers, and each block that it lists.
pub const MAX_REPORT: usize = 41 + 4 * MAX_LISTED;

/// How many bytes of a body go into one frame.
pub const CHUNK_LIMIT: usize = 1_024;

/// How many bytes a frame has at the most behind its header: the numbers of a piece, and its part of
/// the body.
pub const FRAME_LIMIT: u32 = 33 + CHUNK_LIMIT as u32;

/// How many bytes a piece has before its part of the body: a header of 16, and 33 of its numbers.
pub const PIECE_HEAD: usize = 49;

/// How many bytes a frame has at the most.
pub const MAX_FRAME: usize = PIECE_HEAD + CHUNK_LIMIT;

/// How many frames a packet has at the most.
pub const MAX_FRAMES: usize = 17;

/// How many bytes the frames of a packet have together at the most.
pub const MAX_FRAMED: usize = MAX_BODY as usize + PIECE_HEAD * MAX_FRAMES;

/// Of how many bodies the pieces wait at the most.
pub const MAX_TAGS: usize = 128;
