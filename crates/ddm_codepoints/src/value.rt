//! Values of parameters that have few of them (DDM, volume 3).

/// SVRCOD of information.
pub const INFO: u16 = 0;

/// SVRCOD of a warning.
pub const WARNING: u16 = 4;

/// SVRCOD of an error.
pub const ERROR: u16 = 8;

/// SVRCOD of severe damage.
pub const SEVERE: u16 = 16;

/// UOWDSP of a unit of work that was committed.
pub const COMMITTED: u8 = 1;

/// UOWDSP of a unit of work that was rolled back.
pub const ROLLED_BACK: u8 = 2;

/// SECMEC of a user with a password.
pub const USER_AND_PASSWORD: u16 = 3;

/// SECMEC of a user alone.
pub const USER_ALONE: u16 = 4;

/// SECCHKCD of a user who may go on.
pub const ADMITTED: u8 = 0;

/// RLSCONV that asks for release, or grants it. This project's own.
pub const RELEASE: u8 = 0xF2;

/// RTNSETSTT that asks for the SET statements of the unit of work. This project's own.
pub const RETURN_SETS: u8 = 0xF1;
