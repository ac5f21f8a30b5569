//! The limits of the formats and of what the program handles.

/// A `Mask` holds numbers below this.
pub const WIDTH: u32 = 256;

/// The most inputs of a polarity, and the most inputs and outputs of a network: a point is a set of inputs.
pub const NET_LINES: u32 = WIDTH;

/// The most inputs and the most outputs of a source text: its network has one line more.
pub const SOURCE_LINES: u32 = NET_LINES - 1;

/// The most inputs and the most outputs of a written netlist.
pub const WRITTEN_LINES: u32 = NET_LINES;

/// The most pins of a gate: a row of its table is a cube over the pins.
pub const PINS: u32 = WIDTH;

/// The most gates of a network.
pub const GATES: u32 = 262_144;

/// The most bytes of a name.
pub const NAME_BYTES: usize = 511;

/// The most bytes of a name in a source text.
pub const SOURCE_NAME_BYTES: usize = 255;

/// The most bytes of a text that is read.
pub const TEXT_BYTES: usize = 16_777_216;

/// The most terms that a Reddy network is built of: so many that its gates are no more than `GATES`.
pub const REDDY_TERMS: u64 = 65_536;

/// The most cubes, and so terms, that a factored network is built of.
pub const FACTORED_CUBES: u64 = 1_024;
