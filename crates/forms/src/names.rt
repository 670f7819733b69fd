//! The words that name a command, a kind or a bound.

ghost use Rattle.forms.specs.Names.{command_of, plan_of, item_kind_of, running_of, kind_of, bound_of, point_kind_of};

use crate::form::PlanKind;
use crate::spelled::Spelled;
use activity::entry::{Kind, Running};
use book::date::Bound;

/// The word that a form begins with.
#[derive(Clone, Copy)]
pub(crate) enum Command {
    Plan,
    Enter,
    Alter,
    Strike,
    Date,
    Clear,
}

/// The word that an item begins with.
#[derive(Clone, Copy)]
pub(crate) enum ItemKind {
    Days,
    Hours,
    Relation,
    Arrow,
}

/// The word that a date begins with.
#[derive(Clone, Copy)]
pub(crate) enum PointKind {
    Start,
    Finish,
    Node,
}

impl Spelled for Command {
    ghost of_word = { command_of };

    fn of_word(word: &[u8]) -> Option<Command> {
        match word {
            b"plan" => Some(Command::Plan),
            b"enter" => Some(Command::Enter),
            b"alter" => Some(Command::Alter),
            b"strike" => Some(Command::Strike),
            b"date" => Some(Command::Date),
            b"clear" => Some(Command::Clear),
            _ => None,
        }
    }
}

impl Spelled for PlanKind {
    ghost of_word = { plan_of };

    fn of_word(word: &[u8]) -> Option<PlanKind> {
        match word {
            b"activity" => Some(PlanKind::Activity),
            b"arrow" => Some(PlanKind::Arrow),
            _ => None,
        }
    }
}

impl Spelled for ItemKind {
    ghost of_word = { item_kind_of };

    fn of_word(word: &[u8]) -> Option<ItemKind> {
        match word {
            b"activity" => Some(ItemKind::Days),
            b"hours" => Some(ItemKind::Hours),
            b"relation" => Some(ItemKind::Relation),
            b"arrow" => Some(ItemKind::Arrow),
            _ => None,
        }
    }
}

impl Spelled for Running {
    ghost of_word = { running_of };

    fn of_word(word: &[u8]) -> Option<Running> {
        match word {
            b"whole" => Some(Running::Whole),
            b"broken" => Some(Running::Broken),
            _ => None,
        }
    }
}

impl Spelled for Kind {
    ghost of_word = { kind_of };

    fn of_word(word: &[u8]) -> Option<Kind> {
        match word {
            b"FS" => Some(Kind::FS),
            b"SS" => Some(Kind::SS),
            b"FF" => Some(Kind::FF),
            b"SF" => Some(Kind::SF),
            _ => None,
        }
    }
}

impl Spelled for Bound {
    ghost of_word = { bound_of };

    fn of_word(word: &[u8]) -> Option<Bound> {
        match word {
            b"least" => Some(Bound::Least),
            b"most" => Some(Bound::Most),
            _ => None,
        }
    }
}

impl Spelled for PointKind {
    ghost of_word = { point_kind_of };

    fn of_word(word: &[u8]) -> Option<PointKind> {
        match word {
            b"start" => Some(PointKind::Start),
            b"finish" => Some(PointKind::Finish),
            b"node" => Some(PointKind::Node),
            _ => None,
        }
    }
}
