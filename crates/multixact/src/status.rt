//! What a member of a multixact does to the tuple, by its number (`MultiXactStatus`, multixact.h).

/// It locks the tuple: four strengths, rising.
pub const FOR_KEY_SHARE: u32 = 0;

pub const FOR_SHARE: u32 = 1;

pub const FOR_NO_KEY_UPDATE: u32 = 2;

pub const FOR_UPDATE: u32 = 3;

/// It updates the tuple, and leaves its key as it is.
pub const NO_KEY_UPDATE: u32 = 4;

/// It updates the tuple's key, or deletes the tuple.
pub const UPDATE: u32 = 5;
