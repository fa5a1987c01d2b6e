//! Laws of the state of a lift group as text: a text reads as one thing, and what is written of a group reads back.
#![tactic(auto)]

ghost use Rattle.group_state_laws.specs.Laws.{StateReadsOnce, StateReadsBack, GroupReadsBack};

/// A law: a text reads as one thing: one group, or one fault at one line.
pub fn state_reads_once()
    ensures { StateReadsOnce }
{}

/// A law: the state of a world that rests, with any text after it, reads back as the group of the world. Image, calls,
/// variables of tasks and declared globals are the same, to the letter. Other globals have no line in a state.
/// The configuration is sound, and the digest has 32 bytes.
pub fn state_reads_back()
    ensures { StateReadsBack }
{}

/// A law: if the world has no other globals than those of its configuration, the group that reads back is its own.
pub fn group_reads_back()
    ensures { GroupReadsBack }
{}
