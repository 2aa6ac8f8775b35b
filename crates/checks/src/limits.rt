// The limits of a sheet, each named once. specs/Limits.antt names the same for the definitions.

pub const MAX_BYTES: usize = 65520;

pub const MAX_SLOTS: u32 = 96;

pub const MAX_BLOWERS: u32 = 8;

pub const MAX_WAKE: u32 = 2000;

pub const MAX_RATIONS: u32 = 64;

pub const MAX_TANK: u32 = 250000;
