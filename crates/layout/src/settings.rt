// Where each thing stands in the settings table, and how many readers, groups and classes there are.

// How many words the table needs.
pub const LENGTH: usize = 903;

// Where the thresholds begin, and how many there are.
pub const THRESHOLDS: usize = 6;

pub const LEVELS: usize = 64;

// The register: where the memberships, the grants and the entries begin, and how many words they take.
pub const MEMBERS: usize = 70;

pub const GRANTS: usize = 326;

pub const ENTRIES: usize = 390;

pub const REGISTER: usize = 832;

// Where the link to the first free node stands.
pub const FREE: usize = 902;

// Readers, groups and classes are numbered from 0 to below these.
pub const READERS: u32 = 256;

pub const GROUPS: u32 = 32;

pub const CLASSES: u32 = 64;
