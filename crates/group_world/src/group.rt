// What the tasks of a group share, as the definitions see it.

ghost use Rattle.std.specs.Prelude.{◌≡◌, ◌≤◌, List, [], Option, ℕ, All, Some, None, IfOk, IsSome, is_some, option_and_then};
ghost use Rattle.base_maps.specs.NameMap as values;
ghost use Rattle.scan_task.specs.Standing.{IsOf, StillHas};
ghost use Rattle.group_spec.specs.Calls.{enter_all, IsCall, SlotInRange, greatest_ticket};
ghost use Rattle.group_spec.specs.Image.{sizes_of, FieldsInRange, Obeys};
ghost use Rattle.group_spec.specs.Snapshot.{scan_begins};
ghost use Rattle.group_spec.specs.World.{TaskState, task_at, opening_group, beginning_of, started_group, refreshed_group, InRanges};
ghost use Rattle.group_laws.specs.Holding.{RestsWell};
ghost use Rattle.group_world.specs.Groups.{is_open_in, CommitsOpen, ScansWhole};
ghost use Rattle.group_world.specs.Setting.{IsSeated, IsFreshAt, resting, rested, with_image, with_place, with_last, SetsGlobal, SetsVariable};

use crate::calling::{clear, enter_all};
use crate::shared::{Shared, settle_cars};
use crate::taking::{take_fields, take_outputs};
use group_calls::book::CallBook;
use group_spec::calls::Slot;
use group_spec::hand::Hand;
use group_spec::report::Report;
use group_spec::{Bounded, Fields, Image, SLOT_PLACES};
use scan_task::{
    Begin, Store, Unset, Value, Verified, finish, opening_image, set_global, variable,
};
use std::alloc::{AllocError, Global};
use std::marker::Model;
use std::snapshot::Snapshot;

/// What the tasks of a program share, and the tasks. Its image lies in its ranges and obeys the interlock, whatever events come.
pub struct Core {
    program: Snapshot<Verified>,
    shared: Shared,
}

// Written by hand, since who drops a type whose drop is derived proves the drop of each type inside again.
impl Drop for Core {
    fn drop(self) {
        let Core {
            program: _program,
            shared: _shared,
        } = self;
    }
}

impl Model for Core {
    ghost use Rattle.group_world.specs.Groups.{GroupOf, group_of_code};
    ghost use Rattle.group_world.specs.Running.{group_in, HoldsShared};

    ghost Value = { GroupOf };

    ghost coded = { group_of_code };

    ghost view = { λ k. record {
      config = k.program.value.config;
      group = group_in k.program.value.config k.shared;
    } };

    ghost invariant = { λ k. HoldsShared k.program.value.config k.shared };
}

impl Core {
    /// The group as it opens (own rule).
    pub fn new(alloc: Global, verified: &Verified) -> Result<Core, AllocError>
        ensures config { IfOk result (λ k. k.config ≡ verified.now.config) }
        ensures group { IfOk result (λ k. k.group ≡ opening_group verified.now.config) }
        ensures seated { IfOk result (λ k. IsSeated k.config k.group) }
    {
        let _config = verified.config();
        let shared = Shared::new(alloc, verified)?;
        Ok(Core {
            program: Snapshot::of(verified),
            shared,
        })
    }

    /// What holds of every group: image, slots and globals lie in their ranges, and the image obeys the interlock.
    pub fn holds(&self)
        ensures ranges { InRanges self.now.config self.now.group }
        ensures obeys { Obeys self.now.group.image }
    {
        let _shared = &self.shared;
    }

    /// The image.
    pub fn image(&self) -> &Image
        ensures { result.now ≡ self.now.group.image }
    {
        &self.shared.image
    }

    /// The call slots, slot 1 first.
    pub fn slots(&self) -> Bounded<Slot, SLOT_PLACES>
        ensures { result ≡ self.now.group.calls.slots }
    {
        self.shared.calls.slots()
    }

    /// The calls.
    pub fn calls(&self) -> &CallBook
        ensures { result.now ≡ self.now.group.calls }
    {
        &self.shared.calls
    }

    /// Whether the group has the task of a number.
    pub fn has_task(&self, task: u8) -> bool
        ensures { result ≡ is_some (task_at self.now.group task) }
    {
        self.shared.memory(task).is_some()
    }

    /// Whether a scan of a task is open.
    pub fn is_open(&self, task: u8) -> bool
        ensures { result ≡ is_open_in self.now.group task }
    {
        match self.shared.memory(task) {
            Some(memory) => memory.tickets.is_open(),
            None => false,
        }
    }

    /// The value of a variable of a task, as its last commit left it.
    pub fn variable(&self, verified: &Verified, task: u8, path: &str) -> Option<Value>
        requires { self.now.config ≡ verified.now.config }
        ensures { result
            ≡ option_and_then (λ t. values.get t.variables path.now) (task_at self.now.group task) }
    {
        match self.shared.memory(task) {
            Some(memory) => variable(&memory.variables, verified, task, path),
            None => None,
        }
    }

    /// The value of a global, as the last commit left it.
    pub fn global(&self, verified: &Verified, path: &str) -> Option<Value>
        requires { self.now.config ≡ verified.now.config }
        ensures { result ≡ values.get self.now.group.globals path.now }
    {
        verified.global(&self.shared.globals, path)
    }

    /// Another image, with its fields in their ranges, that obeys the interlock. No allocation.
    pub fn set_image(&mut self, image: &Image)
        requires fields { FieldsInRange (sizes_of self.old.config) image.now.fields }
        requires obeys { Obeys image.now }
        ensures config { self.new.config ≡ self.old.config }
        ensures group { self.new.group ≡ with_image self.old.group image.now }
    {
        take_fields(&mut self.shared.image.fields, &image.fields);
        take_outputs(&mut self.shared.image.outputs, &image.outputs);
    }

    /// Another slot of a number, which counts from 1, in its range and under no ticket of another slot. No allocation.
    pub fn set_slot(&mut self, slot: u8, place: Slot)
        requires slot { (1 ≤ slot) × (slot ≤ (sizes_of self.old.config).slots) }
        requires place { SlotInRange (sizes_of self.old.config) self.old.group.calls.last_ticket
            place }
        requires fresh { IsFreshAt self.old.group.calls.slots slot place }
        ensures config { self.new.config ≡ self.old.config }
        ensures group { self.new.group ≡ with_place self.old.group slot place }
    {
        self.shared.calls.put(slot, place);
    }

    /// Another last ticket, no lower. No allocation.
    pub fn set_last_ticket(&mut self, last: u64)
        requires greatest { last ≤ greatest_ticket }
        requires later { self.old.group.calls.last_ticket ≤ last }
        ensures config { self.new.config ≡ self.old.config }
        ensures group { self.new.group ≡ with_last self.old.group last }
    {
        self.shared.calls.give(last);
    }

    /// Gives a global another value of its declared set, by its path. Otherwise nothing changes. No allocation.
    pub fn set_global(&mut self, verified: &Verified, path: &str, value: Value) -> Result<(), Unset>
        requires program { self.old.config ≡ verified.now.config }
        ensures config { self.new.config ≡ self.old.config }
        ensures set { SetsGlobal verified.now.config self.old.group path.now value result
            self.new.group }
    {
        set_global(&mut self.shared.globals, verified, path, value)
    }

    /// Gives a variable of a task another value of its declared set, by its path. Otherwise nothing changes. No allocation.
    pub fn set_variable(
        &mut self,
        verified: &Verified,
        task: u8,
        path: &str,
        value: Value,
    ) -> Result<(), Unset>
        requires program { self.old.config ≡ verified.now.config }
        requires there { IsSome (task_at self.old.group task) }
        ensures config { self.new.config ≡ self.old.config }
        ensures set { SetsVariable verified.now.config task self.old.group path.now value result
            self.new.group }
    {
        self.shared.set_variable(verified, task, path, value)
    }

    /// Every motor is still, and no door has an open command. No allocation.
    pub(crate) fn rest(&mut self, verified: &Verified)
        requires program { self.old.config ≡ verified.now.config }
        ensures config { self.new.config ≡ self.old.config }
        ensures group { self.new.group ≡ rested self.old.group }
    {
        let _config = verified.config();
        let opening = opening_image(verified.sizes());
        take_outputs(&mut self.shared.image.outputs, &opening.outputs);
    }

    /// A group whose tasks are between scans makes a world that rests.
    pub(crate) fn rests(&self)
        requires { IsSeated self.now.config self.now.group }
        ensures { RestsWell self.now.config (resting self.now.config self.now.group) }
    {
        let _shared = &self.shared;
    }

    /// A scan of the task begins in this store, which takes the task's variables. The task holds no tickets of it.
    pub(crate) fn fill(&self, verified: &Verified, task: u8, store: &mut Store)
        requires program { self.now.config ≡ verified.now.config }
        requires there { IsSome (task_at self.now.group task) }
        requires of { IsOf verified.now.config task store.old }
        ensures begins { (x : TaskState) → task_at self.now.group task ≡ Some x
            → store.new.state
            ≡ scan_begins verified.now.config task (beginning_of self.now.group x) }
        ensures kept { (x : TaskState) → task_at self.now.group task ≡ Some x
            → StillHas x.variables store.new.state }
        ensures of { IsOf verified.now.config task store.new }
    {
        let Some(memory) = &self.shared.memories[usize::from(task)] else {
            unreachable!()
        };
        let begin = Begin {
            variables: &memory.variables,
            globals: &self.shared.globals,
            image: &self.shared.image,
            calls: &self.shared.calls,
        };
        store.restart(verified, task, &begin);
    }

    /// A task's scan begins, in this store, and the task holds the tickets that it sees. No allocation.
    pub fn start(&mut self, verified: &Verified, task: u8, store: &mut Store)
        requires program { self.old.config ≡ verified.now.config }
        requires there { IsSome (task_at self.old.group task) }
        requires of { IsOf verified.now.config task store.old }
        ensures config { self.new.config ≡ self.old.config }
        ensures group { (x : TaskState) → task_at self.old.group task ≡ Some x
            → self.new.group ≡ started_group self.old.group task x }
        ensures begins { (x : TaskState) → task_at self.old.group task ≡ Some x
            → store.new.state
            ≡ scan_begins verified.now.config task (beginning_of self.old.group x) }
        ensures of { IsOf verified.now.config task store.new }
    {
        self.fill(verified, task, store);
        self.shared.open(task);
    }

    /// A task's scan begins in a store that still has the task's variables.
    pub(crate) fn start_in_place(&mut self, verified: &Verified, task: u8, store: &mut Store)
        requires program { self.old.config ≡ verified.now.config }
        requires there { IsSome (task_at self.old.group task) }
        requires of { IsOf verified.now.config task store.old }
        requires kept { (x : TaskState) → task_at self.old.group task ≡ Some x
            → StillHas x.variables store.old.state }
        ensures config { self.new.config ≡ self.old.config }
        ensures group { (x : TaskState) → task_at self.old.group task ≡ Some x
            → self.new.group ≡ started_group self.old.group task x }
        ensures begins { (x : TaskState) → task_at self.old.group task ≡ Some x
            → store.new.state
            ≡ scan_begins verified.now.config task (beginning_of self.old.group x) }
        ensures of { IsOf verified.now.config task store.new }
    {
        let Some(memory) = &self.shared.memories[usize::from(task)] else {
            unreachable!()
        };
        let begin = Begin {
            variables: &memory.variables,
            globals: &self.shared.globals,
            image: &self.shared.image,
            calls: &self.shared.calls,
        };
        store.restart_in_place(verified, task, &begin);
        self.shared.open(task);
    }

    /// A task's scan hands over its variables and the globals that its program writes. A car's outputs are settled, and it may serve a
    /// call; GROUP tells each call to the car that it assigned. No allocation.
    pub fn commit(&mut self, verified: &Verified, task: u8, store: &Store, report: &mut Report)
        requires program { self.old.config ≡ verified.now.config }
        requires open { (x : TaskState) × (tickets : List (Option ℕ))
            × (task_at self.old.group task ≡ Some x) × (x.tickets ≡ Some tickets) }
        requires of { IsOf verified.now.config task store.now }
        ensures config { self.new.config ≡ self.old.config }
        ensures group { CommitsOpen verified.now.config task self.old.group store.now.state.values
            self.new.group report.new }
    {
        store.holds();
        self.shared.commit(verified, task, store, report);
    }

    /// A whole scan of a task, in a store that still has its variables: its start, its instructions to the end, and its commit, under the
    /// tickets that the slots have all along. The task is between scans after it. No allocation.
    #[inline(always)]
    pub fn scan_whole(
        &mut self,
        verified: &Verified,
        task: u8,
        store: &mut Store,
        report: &mut Report,
    )
        requires program { self.old.config ≡ verified.now.config }
        requires there { IsSome (task_at self.old.group task) }
        requires of { IsOf verified.now.config task store.old }
        requires kept { (x : TaskState) → task_at self.old.group task ≡ Some x
            → StillHas x.variables store.old.state }
        ensures config { self.new.config ≡ self.old.config }
        ensures scan { (x : TaskState) → task_at self.old.group task ≡ Some x
            → ScansWhole verified.now.config task self.old.group x store.new self.new.group
            report.new }
    {
        let Some(memory) = &self.shared.memories[usize::from(task)] else {
            unreachable!()
        };
        let begin = Begin {
            variables: &memory.variables,
            globals: &self.shared.globals,
            image: &self.shared.image,
            calls: &self.shared.calls,
        };
        store.restart_in_place(verified, task, &begin);
        finish(verified, task, store);
        self.shared.commit_now(verified, task, store, report);
        store.holds();
    }

    /// The image takes fields in their ranges, the outputs are settled under them, and calls of the group enter. No allocation.
    pub fn refresh(&mut self, fields: &Fields, hand: &mut Hand, report: &mut Report)
        requires fields { FieldsInRange (sizes_of self.old.config) fields.now }
        requires calls { All (IsCall (sizes_of self.old.config)) hand.old }
        ensures config { self.new.config ≡ self.old.config }
        ensures group { refreshed_group self.old.group fields.now hand.old
            ≡ (self.new.group, report.new) }
        ensures hand { hand.new ≡ (enter_all self.old.group.calls [] hand.old).hand }
    {
        hand.in_order();
        settle_cars(&mut self.shared.image, fields, report);
        enter_all(&mut self.shared.calls, hand, &mut report.entered);
    }

    /// A refresh where no call is in the hand.
    #[inline(always)]
    pub(crate) fn refresh_alone(&mut self, fields: &Fields, report: &mut Report)
        requires { FieldsInRange (sizes_of self.old.config) fields.now }
        ensures config { self.new.config ≡ self.old.config }
        ensures group { refreshed_group self.old.group fields.now []
            ≡ (self.new.group, report.new) }
    {
        settle_cars(&mut self.shared.image, fields, report);
        clear(&mut report.entered);
    }
}
