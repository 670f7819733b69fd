//! Texts, and what the reader finds in them.

use activity::entry::{Activity, Kind, Relation, Running, Work};
use arrow::entry::Arrow;
use book::date::Bound;
use forms::form::{Form, Item, PlanKind, Point};
use forms::reader::{NoForm, Reader};
use std::process::Abort;

/// What the reader finds first.
fn first(text: &[u8]) -> Result<Option<Form>, NoForm> {
    let mut reader = Reader::new(text);
    reader.next()
}

// Words of this crate for its own cases: a crate that lends such words to every test and program would be no plainer.

fn activity(work: Work, running: Running) -> Item {
    Item::Activity(Activity { work, running })
}

fn relation(kind: Kind, bound: Bound, lag: i32) -> Item {
    Item::Relation(Relation {
        kind,
        bound,
        first: 1,
        second: 2,
        lag,
    })
}

fn arrow(from: usize, to: usize, days: u32) -> Item {
    Item::Arrow(Arrow { from, to, days })
}

/// Checks that each text is one form, and nothing else.
fn check_forms(rt: &impl Abort, cases: &[(&[u8], Form)]) {
    for (text, form) in cases {
        let mut reader = Reader::new(*text);
        assert_eq!(rt; reader.next(), Ok(Some(*form)));
        assert_eq!(rt; reader.next(), Ok(None));
    }
}

/// Checks that no text begins with a form.
fn check_none(rt: &impl Abort, texts: &[&[u8]]) {
    for text in texts {
        assert_eq!(rt; first(*text), Err(NoForm));
    }
}

#[test]
fn plans_lines_and_dates(rt: HostRuntime) {
    check_forms(
        &rt,
        &[
            (b"(plan activity)\n", Form::Plan(PlanKind::Activity)),
            (b"(plan arrow)\n", Form::Plan(PlanKind::Arrow)),
            (b"(strike 9)\n", Form::Strike(9)),
            (b"(clear 0)\n", Form::Clear(0)),
            (
                b"(date 2 (start 4 least 10))\n",
                Form::Date(2, Point::Start(4), Bound::Least, 10),
            ),
            (
                b"(date 2 (finish 4 most 10))\n",
                Form::Date(2, Point::Finish(4), Bound::Most, 10),
            ),
            (
                b"(date 2 (node 4 most 999999))\n",
                Form::Date(2, Point::Node(4), Bound::Most, 999_999),
            ),
        ],
    );
}

#[test]
fn items(rt: HostRuntime) {
    check_forms(
        &rt,
        &[
            (
                b"(enter 1 (activity 5 whole))\n",
                Form::Enter(1, activity(Work::Days(5), Running::Whole)),
            ),
            (
                b"(alter 1 (hours 20 broken))\n",
                Form::Alter(1, activity(Work::Hours(20), Running::Broken)),
            ),
            (
                b"(enter 9 (relation FS most 1 2 -4))\n",
                Form::Enter(9, relation(Kind::FS, Bound::Most, -4)),
            ),
            (
                b"(alter 9 (relation SF least 1 2 0))\n",
                Form::Alter(9, relation(Kind::SF, Bound::Least, 0)),
            ),
            (
                b"(enter 9 (relation SS most 1 2 999999))\n",
                Form::Enter(9, relation(Kind::SS, Bound::Most, 999_999)),
            ),
            (
                b"(enter 9 (relation FF most 1 2 -999999))\n",
                Form::Enter(9, relation(Kind::FF, Bound::Most, -999_999)),
            ),
            (b"(enter 1 (arrow 1 2 4))\n", Form::Enter(1, arrow(1, 2, 4))),
        ],
    );
}

#[test]
fn numbers_written_otherwise(rt: HostRuntime) {
    check_none(
        &rt,
        &[
            b"(strike 09)\n",
            b"(strike 00)\n",
            b"(strike -9)\n",
            b"(strike +9)\n",
            b"(strike 1000000)\n",
            b"(strike )\n",
            b"(strike nine)\n",
            b"(enter 9 (relation FS most 1 2 -0))\n",
            b"(enter 9 (relation FS most 1 2 -04))\n",
            b"(enter 9 (relation FS most 1 2 --4))\n",
            b"(enter 9 (relation FS most 1 2 -1000000))\n",
            b"(enter 9 (relation FS most 1 2 -))\n",
        ],
    );
}

#[test]
fn bytes_out_of_place(rt: HostRuntime) {
    check_none(
        &rt,
        &[
            b"(strike 9)",
            b"(strike  9)\n",
            b"(strike 9 )\n",
            b"(strike 9) \n",
            b" (strike 9)\n",
            b"( strike 9)\n",
            b"(strike 9)\r\n",
            b"(strike\n9)\n",
            b"\n",
            b"\0",
            b"\xff",
            b"(strike \xff)\n",
            b"(Strike 9)\n",
            b"(strikes 9)\n",
            b"(plan)\n",
            b"(plan book)\n",
            b"(date 2 (start 4 least 10)\n",
        ],
    );
}

#[test]
fn one_form_after_another(rt: HostRuntime) {
    let mut reader = Reader::new(b"(plan arrow)\n(strike 1)\n(strike 01)\n");
    assert_eq!(rt; reader.next(), Ok(Some(Form::Plan(PlanKind::Arrow))));
    assert_eq!(rt; reader.next(), Ok(Some(Form::Strike(1))));
    assert_eq!(rt; reader.next(), Err(NoForm));
    assert_eq!(rt; reader.next(), Err(NoForm));
    assert_eq!(rt; first(b""), Ok(None));
}
