//! How calls, answers and places are printed.

use activity::entry::{Activity, Entry, Kind, Relation, Running, Work};
use arrow::entry::Arrow;
use book::date::{Bound, Date};
use book::refusal::{Layer, Refused};
use network::gap::{Gap, Owner};
use std::fmt;

/// A value, to be printed in the words of a plan.
// A struct of this crate, since a crate may not implement Display for the types of another.
#[derive(Clone, Copy)]
pub struct Words<T>(pub T);

impl fmt::Display for Words<Bound> {
    fn fmt<W: fmt::Write>(&self, f: &mut fmt::Formatter<W>) -> fmt::Result {
        match self.0 {
            Bound::Least => write!(f, "least"),
            Bound::Most => write!(f, "most"),
        }
    }
}

impl fmt::Display for Words<Running> {
    fn fmt<W: fmt::Write>(&self, f: &mut fmt::Formatter<W>) -> fmt::Result {
        match self.0 {
            Running::Whole => write!(f, "whole"),
            Running::Broken => write!(f, "broken"),
        }
    }
}

impl fmt::Display for Words<Kind> {
    fn fmt<W: fmt::Write>(&self, f: &mut fmt::Formatter<W>) -> fmt::Result {
        match self.0 {
            Kind::FS => write!(f, "FS"),
            Kind::SS => write!(f, "SS"),
            Kind::FF => write!(f, "FF"),
            Kind::SF => write!(f, "SF"),
        }
    }
}

impl fmt::Display for Words<Activity> {
    fn fmt<W: fmt::Write>(&self, f: &mut fmt::Formatter<W>) -> fmt::Result {
        let running = Words(self.0.running);
        match self.0.work {
            Work::Days(days) => write!(f, "(activity {days} {running})"),
            Work::Hours(hours) => write!(f, "(hours {hours} {running})"),
        }
    }
}

impl fmt::Display for Words<Relation> {
    fn fmt<W: fmt::Write>(&self, f: &mut fmt::Formatter<W>) -> fmt::Result {
        let Relation {
            kind,
            bound,
            first,
            second,
            lag,
        } = self.0;
        let (kind, bound) = (Words(kind), Words(bound));
        write!(f, "(relation {kind} {bound} {first} {second} {lag})")
    }
}

impl fmt::Display for Words<Entry> {
    fn fmt<W: fmt::Write>(&self, f: &mut fmt::Formatter<W>) -> fmt::Result {
        match self.0 {
            Entry::Activity(activity) => Words(activity).fmt(f),
            Entry::Relation(relation) => Words(relation).fmt(f),
        }
    }
}

impl fmt::Display for Words<Arrow> {
    fn fmt<W: fmt::Write>(&self, f: &mut fmt::Formatter<W>) -> fmt::Result {
        let Arrow { from, to, days } = self.0;
        write!(f, "(arrow {from} {to} {days})")
    }
}

impl fmt::Display for Words<Date> {
    fn fmt<W: fmt::Write>(&self, f: &mut fmt::Formatter<W>) -> fmt::Result {
        let Date { event, bound, day } = self.0;
        let bound = Words(bound);
        write!(f, "(event {event} {bound} {day})")
    }
}

impl fmt::Display for Words<Layer> {
    fn fmt<W: fmt::Write>(&self, f: &mut fmt::Formatter<W>) -> fmt::Result {
        match self.0 {
            Layer::Text => write!(f, "text"),
            Layer::Dates => write!(f, "dates"),
            Layer::Book => write!(f, "book"),
            Layer::Plan => write!(f, "plan"),
        }
    }
}

impl fmt::Display for Words<Result<(), Refused>> {
    fn fmt<W: fmt::Write>(&self, f: &mut fmt::Formatter<W>) -> fmt::Result {
        match self.0 {
            Ok(()) => write!(f, "done"),
            Err(Refused { why, layer, place }) => {
                let (number, layer) = (why.number(), Words(layer));
                write!(f, "refused {number} by the {layer} at {place}")
            }
        }
    }
}

impl fmt::Display for Words<Owner> {
    fn fmt<W: fmt::Write>(&self, f: &mut fmt::Formatter<W>) -> fmt::Result {
        match self.0 {
            Owner::Line(number) => write!(f, "book {number}"),
            Owner::DatePlace(number) => write!(f, "dates {number}"),
            Owner::Floor(number) => write!(f, "floor {number}"),
        }
    }
}

impl fmt::Display for Words<Gap> {
    fn fmt<W: fmt::Write>(&self, f: &mut fmt::Formatter<W>) -> fmt::Result {
        let Gap {
            left,
            reached,
            days,
        } = self.0;
        write!(f, "event {reached} at least event {left} plus {days}")
    }
}
