// What settling keeps.

ghost use Rattle.group_interlock.specs.Laws.{CommitKeeps, RefreshGives};

/// A law: a settled commit of one of the cars leaves an image that obeys the interlock if the image obeyed it (own rule).
pub fn commit_keeps_obeying()
    ensures { CommitKeeps }
{}

/// A law: a settled refresh gives an image that obeys the interlock, whatever the outputs were, with as many outputs
/// as cars (own rule).
pub fn refresh_gives_obeying()
    ensures { RefreshGives }
{}
