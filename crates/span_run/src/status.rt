//! The statuses with which the program ends after a fault.

/// The script is at fault.
pub const SCRIPT_STATUS: u8 = 1;

/// Memory was refused, a device failed, or a storm was refused or held.
pub const FAILED_STATUS: u8 = 3;
