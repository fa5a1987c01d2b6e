//! The journal of a lift group: its entries, the events that they mean, and laws of its runs.
#![tactic(auto)]

ghost use Rattle.group_journal.specs.Laws.{JournalReaches, JournalIsWell, EntryKeeps, EntriesAlternate, RefreshEnters, CommitEnters};
ghost use Rattle.group_journal.specs.Driven.{DrivenJournalIsSafe};
ghost use Rattle.group_journal.specs.Safe.{DrivenIsSafe, RoundsKeepCarsSafe};

pub mod entered;
pub mod fault;

/// A law: a world that a journal leads to is one that a run of events leads to.
pub fn journal_reaches()
    ensures { JournalReaches }
{}

/// A law: of an accepted configuration, the image at a journal's end lies in its ranges and obeys the interlock.
pub fn journal_is_well()
    ensures { JournalIsWell }
{}

/// A law: a journal that has room takes a further entry.
pub fn entry_keeps()
    ensures { EntryKeeps }
{}

/// A law: the entries of each task alternate, and a scan of it is open exactly where their number is odd.
pub fn entries_alternate()
    ensures { EntriesAlternate }
{}

/// A law: a refresh that is lent its hand, with the calls of the hand that enter, is the step of its entry.
pub fn refresh_enters()
    ensures { RefreshEnters }
{}

/// A law: an open scan that is run to its end and committed is the step of its entry.
pub fn commit_enters()
    ensures { CommitEnters }
{}

/// A law: of an accepted configuration, a round goes a safe step, where the image has what the plant reports and each car is in its shaft.
/// After it both are so again.
pub fn driven_is_safe()
    ensures { DrivenIsSafe }
{}

/// A law: of an accepted configuration, so many rounds from the opening keep the cars safe: none changes its place unless its door is
/// shut, and none leaves its shaft.
pub fn rounds_keep_cars_safe()
    ensures { RoundsKeepCarsSafe }
{}

/// A law: of an accepted configuration, a journal whose refreshes come from the plant keeps the cars safe, in whatever order the scans of
/// its tasks are between them.
pub fn driven_journal_is_safe()
    ensures { DrivenJournalIsSafe }
{}
