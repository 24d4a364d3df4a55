// Limits of keys and ticks, as document 01 sets them.

// Keys are below this.
pub const KEY_LIMIT: u16 = 30000;

// The tick that no call takes: as the end of a row it says that the row has not ended.
pub const OPEN: u32 = 4294967295;
