// The limits of the tool, once each, for code and definitions.

/// The most bytes of a file that is read.
pub const MAX_FILE_BYTES: u32 = 262_144;

/// The most levels of a tree: a member is level 1, and what stands directly inside a node is one level higher.
pub const MAX_LEVELS: u8 = 128;

/// The most functions of a program.
pub const MAX_FUNCTIONS: usize = 64;

/// The most state variables of a program.
pub const MAX_VARIABLES: usize = 48;

/// The most local variables of a function.
pub const MAX_LOCALS: usize = 48;

/// The most statements of a program.
pub const MAX_STATEMENTS: usize = 4_096;

/// The most pivots of one run of the tableau.
pub const MAX_PIVOTS: u32 = 100_000;

/// The most nodes of one search over alternatives.
pub const MAX_NODES: u32 = 65_536;

/// The most candidates of one system.
pub const MAX_CANDIDATES: usize = 1_024;

/// The most lemmas of one batch.
pub const MAX_LEMMAS: usize = 1_024;

/// The most turns of a run by which a violation is shown.
pub const MAX_TURNS: u32 = 1_024;

/// The most probes of a program.
pub const MAX_PROBES: usize = 4_096;
