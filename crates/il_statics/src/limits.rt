// The greatest sizes of a group and of its tasks (own rules).

/// The most cars.
pub const MOST_CARS: u8 = 8;

/// The most floors.
pub const MOST_FLOORS: u8 = 16;

/// The most call slots.
pub const MOST_SLOTS: u8 = 64;

/// The most slots of a task, and of the globals.
pub const MOST_TASK_SLOTS: usize = 4096;

/// The most units of a chain of uses, its first one counted.
pub const LONGEST_CHAIN: usize = 16;
