// How long a file may be, in bytes.
pub const FILE_BYTES: usize = 65535;
