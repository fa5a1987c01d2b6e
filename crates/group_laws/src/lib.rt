//! Every run of an accepted program is well: laws of the definitions alone.
#![tactic(auto)]

ghost use Rattle.il_syntax.specs.declared.tree.Config.{Config};
ghost use Rattle.group_laws.specs.Accepted.{IsSound};
ghost use Rattle.group_laws.specs.Scans.{ScansWell, OpensWell};
ghost use Rattle.group_laws.specs.Seeing.{ImageIsSeen};
ghost use Rattle.group_laws.specs.Runs.{RunsWell, SoundRunsWell, OpeningHolds, EventKeeps, RefusalChangesNothing, InstructionChangesItsScan, RefreshChangesFields, RunsKeepFields, RunAppends, RepliesFollow, ReachedGoesOn, ReachedHolds, ReachedRests, RestsAtRest};
ghost use Rattle.group_laws.specs.Histories.{CallGoesWell, RunsGoOn, EventIsRun, CallsAreOneRun, RunsAreCut};
ghost use Rattle.std.specs.Prelude.{List};
ghost use Rattle.group_spec.specs.World.{World};
ghost use Rattle.group_spec.specs.declared.event.Event.{Event};

/// A law: of an accepted configuration whose units have annotations, and of every list of events from the opening, no scan
/// traps, sticks or passes its budget; after each event image, globals, slots and variables lie in their ranges, and the
/// image obeys the interlock.
pub fn accepted_runs_well()
    ensures { (c : Config) → IsSound c → RunsWell c }
{}

/// A law: globals and variables of such a configuration open with values of their declared sets.
pub fn accepted_opens_well()
    ensures { (c : Config) → IsSound c → OpensWell c }
{}

/// A law: every scan of such a configuration that begins in a group in its ranges goes on to its end within the budget, and
/// keeps the declared sets.
pub fn accepted_scans_well()
    ensures { (c : Config) → IsSound c → ScansWell c }
{}

/// A law: where the opening is well and every scan is, every run is.
pub fn sound_runs_well()
    ensures { SoundRunsWell }
{}

/// A law: the opening world holds, and no scan of it is open.
pub fn opening_holds()
    ensures { OpeningHolds }
{}

/// A law: each event leads from a world that holds to one that holds.
pub fn event_keeps()
    ensures { EventKeeps }
{}

/// A law: an event that is refused changes nothing.
pub fn refusal_changes_nothing()
    ensures { RefusalChangesNothing }
{}

/// A law: an Instruction of one task leaves the image and every other task as they were.
pub fn instruction_changes_its_scan()
    ensures { InstructionChangesItsScan }
{}

/// A law: only a refresh that is taken changes the fields of the image, and it makes them its own.
pub fn refresh_changes_fields()
    ensures { RefreshChangesFields }
{}

/// A law: a run over events of which none is a refresh leaves the fields of the image as they were.
pub fn runs_keep_fields()
    ensures { RunsKeepFields }
{}

/// A law: a run over two lists is a run over the first and then one over the second.
pub fn run_appends()
    ensures { RunAppends }
{}

/// A law: earlier replies come before those of a run, and change nothing else.
pub fn replies_follow()
    ensures { RepliesFollow }
{}

/// A law: a run from a world that is reached leads to one that is reached.
pub fn reached_goes_on()
    ensures { ReachedGoesOn }
{}

/// A law: a world that is reached holds, where the opening is well and every scan is.
pub fn reached_holds()
    ensures { ReachedHolds }
{}

/// A law: a world that is reached rests where no scan is open, so that runs may begin there.
pub fn reached_rests()
    ensures { ReachedRests }
{}

/// A law: a world that rests does so with every motor still and no open command.
pub fn rests_at_rest()
    ensures { RestsAtRest }
{}

/// A law: of a program that runs well a run from any world that is reached goes on well.
pub fn runs_go_on()
    ensures { RunsGoOn }
{}

/// A law: of a group in its ranges, a scan sees values of the image's declared sets.
pub fn image_is_seen()
    ensures { ImageIsSeen }
{}

/// A law: a call that hands in events to such a configuration's world goes well: after every history that leads to the
/// world, each prefix of the events runs to its end, and to a world that is well of both together.
pub fn accepted_calls_go_well()
    ensures { (c : Config) → IsSound c → (w : World) (events : List Event)
        → CallGoesWell c w events }
{}

/// A law: one event alone is a run of one event.
pub fn event_is_run()
    ensures { EventIsRun }
{}

/// A law: calls one after another are one run over all of their events.
pub fn calls_are_one_run()
    ensures { CallsAreOneRun }
{}

/// A law: each run can be cut: its prefix leads to a world from which the rest goes on.
pub fn runs_are_cut()
    ensures { RunsAreCut }
{}
