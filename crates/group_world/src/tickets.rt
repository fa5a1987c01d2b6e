// The tickets that the open scan of a task saw.

ghost use Rattle.std.specs.Prelude.{◌≡◌, ◌≤◌, ◌++◌, ℕ, List, Option, Some, None, is_some, map, length, drop};
ghost use Rattle.group_spec.specs.Calls.{ticket_of};

use group_calls::book::CallBook;
use std::marker::Model;

/// The ticket of each call slot as the open scan of a task saw it, if one is open. Contracts see just that. Between scans the tickets stay
/// where they are, so that no commit clears them.
#[derive(Drop)]
pub struct Tickets {
    seen: [Option<u64>; 64],
    count: u8,
    is_open: bool,
}

impl Model for Tickets {
    ghost use Rattle.std.specs.Prelude.{ℕ, List, Option, ◌≤◌};
    ghost use Rattle.group_world.specs.Seen.{seen_by};

    ghost Value = { Option (List (Option ℕ)) };

    ghost view = { λ t. seen_by t.is_open t.count t.seen };

    ghost invariant = { λ t. t.count ≤ 64 };
}

// Copies tickets to the front of a row.
fn copy_to_front(row: &mut [Option<u64>], tickets: &[Option<u64>])
    requires { length tickets.now ≤ length row.old }
    ensures { row.new ≡ tickets.now ++ drop (length tickets.now) row.old }
{
    let (front, _) = row.split_at_mut(tickets.len());
    front.copy_from_slice(tickets);
}

impl Tickets {
    /// No scan is open.
    pub fn none() -> Tickets
        ensures { result ≡ None }
    {
        Tickets {
            seen: [None; 64],
            count: 0,
            is_open: false,
        }
    }

    /// Whether a scan is open.
    pub fn is_open(&self) -> bool
        ensures { result ≡ is_some self.now }
    {
        self.is_open
    }

    /// A scan begins, and sees the tickets of the slots.
    pub fn open(&mut self, calls: &CallBook)
        ensures { self.new ≡ Some (map ticket_of calls.now.slots) }
    {
        let count = calls.count();
        copy_to_front(&mut self.seen, calls.columns().tickets());
        self.count = count;
        self.is_open = true;
    }

    /// The scan ends.
    pub fn shut(&mut self)
        ensures { self.new ≡ None }
    {
        self.is_open = false;
    }

    /// What the open scan saw.
    pub fn saw(&self) -> &[Option<u64>]
        requires { (tickets : List (Option ℕ)) × (self.now ≡ Some tickets) }
        ensures { (tickets : List (Option ℕ)) → self.now ≡ Some tickets → result.now ≡ tickets }
    {
        &self.seen[..usize::from(self.count)]
    }
}
