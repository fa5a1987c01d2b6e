// The rule of the desk's words, and what a step on one of them tells.
ghost use Rattle.threads_desk.specs.Account.{Accounts, opening_view, Presses, Gathers, Looks, with_panel_more, next_panel, with_panel_back};
ghost use Rattle.threads_desk.specs.declared.rule.View.TheVariants.{Spent};

use atomic_table::{Join, Play, Split, TableRule};
use group_spec::calls::Call;
use std::collections::LinkedList;

/// What a seat of the table knows. No value of it is made.
#[derive(Drop)]
pub enum View {
    /// A panel's: its number over all floors, its floor, the calls that it was answered New, and all that it pressed.
    OfPanel {
        panels: u64,
        number: u64,
        floor: u64,
        news: LinkedList<Call>,
        pressed: LinkedList<Call>,
    },
    /// The collector's: the calls that it gathered, how many panels there are, and of those that came back at the end their numbers, the
    /// calls that they were answered New, and all that they pressed.
    OfHand {
        floors: u64,
        panels: u64,
        gathered: LinkedList<Call>,
        made: u64,
        back: LinkedList<u64>,
        news: LinkedList<Call>,
        pressed: LinkedList<Call>,
    },
    /// That of a panel that came back.
    Spent,
}

/// The size of a desk.
#[derive(Drop)]
pub struct Size {
    pub floors: u64,
    pub panels: u64,
}

/// The rule.
pub struct Account;

impl TableRule<u64, View, Size> for Account {
    ghost holds = { Accounts };

    ghost first = { opening_view };
}

pub(crate) struct Press;

impl Play<u64, View> for Press {
    ghost then = { Presses };
}

pub(crate) struct Gather;

impl Play<u64, View> for Gather {
    ghost then = { Gathers };
}

pub(crate) struct Look;

impl Play<u64, View> for Look {
    ghost then = { Looks };
}

/// The collector's seat makes that of the next panel.
pub(crate) struct NextPanel;

impl Split<View> for NextPanel {
    ghost left = { with_panel_more };

    ghost right = { next_panel };
}

/// The collector's seat takes in that of a panel, at the end.
pub(crate) struct PanelBack;

impl Join<View> for PanelBack {
    ghost both = { with_panel_back };

    ghost spent = { Spent };
}
