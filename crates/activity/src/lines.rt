//! The lines of the activity book, and the rule they go by.

ghost use Rattle.std.specs.Prelude.{◌≡◌, None};
ghost use Rattle.std.specs.Result.{result_err};
ghost use Rattle.book.specs.Calls.{put as replacing};
ghost use Rattle.table.specs.Standing.{standing, changed};
ghost use Rattle.activity.specs.declared.entry.Entry.TheVariants as entry;
ghost use Rattle.activity.specs.Rule.{activity_rule, is_activity, names, named, named_elsewhere, judged_by};
ghost use Rattle.activity.specs.Lawful.{activity_lawful};
ghost use Rattle.table.proofs.Tables.{in_table};
ghost use Rattle.std.proofs.Common.{rules};

use crate::entry::{Entry, Relation};
use crate::places::{ends_by, relating, relation_in_range, runs_for};
use book::range::is_within;
use book::refusal::Refusal;
use line_book::lines::Lines;
use network::gap::{Gap, Owner};
use table::{LINES, LineTable, Table};

/// The number of the last event: the finish of line 400.
const EVENTS: usize = 800;

/// The number of the last place.
const PLACES: usize = 800;

/// 400 lines of activities and relations.
// A kind of lines holds its own table, and hands it on: a book over the entries alone would leave no place in this crate at
// which it is said what stands on a new book.
#[derive(Drop)]
pub struct ActivityLines {
    table: LineTable<Entry>,
}

/// Whether an activity stands there.
fn is_activity(stands: Option<Entry>) -> bool
    ensures { result ≡ is_activity stands }
{
    matches!(stands, Some(Entry::Activity(_)))
}

/// Whether a relation stands there that names line `p`.
fn names_line(stands: Option<Entry>, p: usize) -> bool
    ensures { result ≡ names stands p }
{
    match stands {
        Some(Entry::Relation(r)) => r.first == p || r.second == p,
        _ => false,
    }
}

impl ActivityLines {
    /// Whether a relation on one of the lines names line `p`.
    fn is_named(&self, p: usize) -> bool
        ensures { result ≡ named (standing self.now.table) p }
    {
        // `any` over the lines was tried, and the proof did not close
        for q in 1..=LINES {
            if names_line(self.table.get(q), p) {
                return true;
            }
        }
        false
    }

    /// Whether an activity stands on line `p` that a relation elsewhere names.
    fn is_named_elsewhere(&self, p: usize) -> bool
        ensures { result ≡ named_elsewhere (standing self.now.table) p }
    {
        is_activity(self.table.get(p)) && self.is_named(p)
    }

    /// Whether an activity stands on line `a`, with line `p` taken as empty.
    fn has_activity(&self, p: usize, a: usize) -> bool
        ensures { result ≡ is_activity (replacing (standing self.now.table) p None a) }
    {
        a != p && is_activity(self.table.get(a))
    }

    /// The refusal that meets a relation on line `p`, judged as if that line were empty.
    fn judged_relation(&self, p: usize, r: Relation) -> Result<(), Refusal>
        ensures { result_err result ≡ judged_by (replacing (standing self.now.table) p None) p (entry.Relation r) }
    {
        if !r.lag_in_range() {
            return Err(Refusal::OutOfRange);
        }
        if r.first == r.second {
            return Err(Refusal::SameEnds);
        }
        if !(self.has_activity(p, r.first) && self.has_activity(p, r.second)) {
            return Err(Refusal::NoActivity);
        }
        Ok(())
    }
}

impl Lines for ActivityLines {
    type Entry = Entry;

    ghost rule = { activity_rule };

    ghost standing = { λ l. standing l.table };

    ghost lawful = { activity_lawful };

    ghost only = { Prim.search rules };

    ghost table = { λ l. in_table l.table };

    fn blank() -> ActivityLines {
        ActivityLines {
            table: Table::new(),
        }
    }

    fn get(&self, p: usize) -> Option<Entry> {
        self.table.get(p)
    }

    // the check asks for the trait's clause again here
    fn put(&mut self, p: usize, stands: Option<Entry>)
        ensures { standing self.new.table ≡ changed 400 (standing self.old.table) p stands }
    {
        self.table.put(p, stands);
    }

    fn events() -> usize {
        EVENTS
    }

    fn places() -> usize {
        PLACES
    }

    fn owner(place: usize) -> Owner {
        if is_within(place, PLACES) {
            Owner::Line(place.div_ceil(2))
        } else {
            Owner::Floor(0)
        }
    }

    fn gap(p: usize, e: Entry, place: usize) -> Option<Gap> {
        if !is_within(p, LINES) {
            return None;
        }
        match e {
            Entry::Activity(a) if a.in_range() => {
                if place == 2 * p - 1 {
                    Some(runs_for(p, a))
                } else if place == 2 * p {
                    ends_by(p, a)
                } else {
                    None
                }
            }
            Entry::Relation(r) if relation_in_range(r) => {
                if place == 2 * p - 1 {
                    Some(relating(r))
                } else {
                    None
                }
            }
            _ => None,
        }
    }

    fn judged(&self, p: usize, e: Entry) -> Result<(), Refusal> {
        match e {
            Entry::Activity(a) if a.in_range() => Ok(()),
            Entry::Activity(_) => Err(Refusal::OutOfRange),
            Entry::Relation(r) => self.judged_relation(p, r),
        }
    }

    fn strikes(&self, p: usize) -> bool {
        !self.is_named_elsewhere(p)
    }

    fn alters(&self, p: usize, e: Entry) -> bool {
        !self.is_named_elsewhere(p) || is_activity(Some(e))
    }
}
