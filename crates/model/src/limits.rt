// The numbers of the subject.

// Six weeks of quarter hours.
pub const SLOTS: u16 = 4032;

// The most channels that a campaign may share.
pub const CAPACITY_MAX: u16 = 4095;

// The most rows that a board may have.
pub const ROWS_MAX: usize = 64;

// The greatest profile, and the least and the greatest bearer identity.
pub const PROFILE_MAX: u32 = 255;

pub const BEARER_MIN: u32 = 5;

pub const BEARER_MAX: u32 = 15;
