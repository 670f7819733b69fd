//! What is to stand on a line of a book, as it is written between brackets.

ghost use Rattle.std.specs.Prelude.{ℕ};
ghost use Rattle.activity.specs.declared.entry.Work.{Work};
ghost use Rattle.forms.specs.Parts.{amount_at, activity_at, Makes, relation_at, arrow_at, item_after, item_at};
ghost use Rattle.forms.specs.Steps.{Takes};

use crate::form::Item;
use crate::names::ItemKind;
use crate::reader::Reader;
use activity::entry::{Activity, Relation, Running, Work};
use arrow::entry::Arrow;

impl Reader<'_> {
    /// How much work an activity is and whether it runs without a break, up to the closing bracket.
    #[tactic(auto, unfolding(crate::specs::Parts::amount_at))]
    fn amount(&mut self) -> Option<(u32, Running)>
        ensures { Takes amount_at self.old self.new result }
    {
        Some((self.word(b' ')?, self.word(b')')?))
    }

    /// An activity after its first word, which says what is counted, up to the closing bracket.
    #[tactic(auto, unfolding(crate::specs::Parts::activity_at))]
    fn activity<F: FnOnce(u32) -> Work>(&mut self, counted: F) -> Option<Item>
        requires { F.IsAlwaysCallable counted }
        ensures { (work : ℕ → Work) → Makes (F.post counted) work → Takes (activity_at work) self.old self.new result }
    {
        let (count, running) = self.amount()?;
        let work = counted(count);
        Some(Item::Activity(Activity { work, running }))
    }

    /// A relation after its first word, up to the closing bracket.
    #[tactic(auto, unfolding(crate::specs::Parts::relation_at))]
    fn relation(&mut self) -> Option<Relation>
        ensures { Takes relation_at self.old self.new result }
    {
        Some(Relation {
            kind: self.word(b' ')?,
            bound: self.word(b' ')?,
            first: self.word(b' ')?,
            second: self.word(b' ')?,
            lag: self.word(b')')?,
        })
    }

    /// An arrow after its first word, up to the closing bracket.
    #[tactic(auto, unfolding(crate::specs::Parts::arrow_at))]
    fn arrow(&mut self) -> Option<Arrow>
        ensures { Takes arrow_at self.old self.new result }
    {
        Some(Arrow {
            from: self.word(b' ')?,
            to: self.word(b' ')?,
            days: self.word(b')')?,
        })
    }

    /// An item after its first word, which says what kind it is.
    #[tactic(auto, unfolding(crate::specs::Parts::item_after))]
    fn item_after(&mut self, kind: ItemKind) -> Option<Item>
        ensures { Takes (item_after kind) self.old self.new result }
    {
        match kind {
            ItemKind::Days => self.activity(Work::Days),
            ItemKind::Hours => self.activity(Work::Hours),
            ItemKind::Relation => Some(Item::Relation(self.relation()?)),
            ItemKind::Arrow => Some(Item::Arrow(self.arrow()?)),
        }
    }

    /// An item between brackets.
    #[tactic(auto, unfolding(crate::specs::Parts::item_at))]
    pub(crate) fn item(&mut self) -> Option<Item>
        ensures { Takes item_at self.old self.new result }
    {
        self.byte(b'(')?;
        let kind = self.word(b' ')?;
        self.item_after(kind)
    }
}
