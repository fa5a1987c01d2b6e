// What a call is answered.

/// What a call is answered, by its number in C.
pub enum Status {
    /// It was done.
    Done = 0,
    /// The text is refused.
    Refused = 1,
    /// Memory is missing.
    NoMemory = 2,
    /// The handle is open already.
    Open = 3,
    /// The handle isn't open.
    Closed = 4,
    /// A field is out of range.
    OutOfRange = 5,
    /// The call is on the desk already.
    Already = 6,
    /// There is no such floor.
    NoFloor = 7,
    /// A call to its own floor.
    SameFloor = 8,
    /// The trace is none of the text.
    NoTrace = 10,
    /// The room is too short.
    Short = 11,
}
