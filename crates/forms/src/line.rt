//! A form, as it is written on a line.

ghost use Rattle.forms.specs.Lines.{entry_at, day_at, form_after, form_at};
ghost use Rattle.forms.specs.Steps.{Takes};

use crate::form::{Form, Item, Point};
use crate::names::Command;
use crate::reader::Reader;
use book::date::Bound;

impl Reader<'_> {
    // One function for an item and a date would take a closure with a contract of its own, and be longer than the two.
    /// A line's number and the item that is to stand there, up to the closing bracket.
    #[tactic(auto, unfolding(crate::specs::Lines::entry_at))]
    fn entry(&mut self) -> Option<(usize, Item)>
        ensures { Takes entry_at self.old self.new result }
    {
        let line = self.word(b' ')?;
        let item = self.item()?;
        self.byte(b')')?;
        Some((line, item))
    }

    /// A line's number and the date that is to stand there, up to the closing bracket.
    #[tactic(auto, unfolding(crate::specs::Lines::day_at))]
    fn day(&mut self) -> Option<(usize, (Point, Bound, u32))>
        ensures { Takes day_at self.old self.new result }
    {
        let line = self.word(b' ')?;
        let date = self.date()?;
        self.byte(b')')?;
        Some((line, date))
    }

    /// A form after its first word, which says what it does, up to the closing bracket.
    #[tactic(auto, unfolding(crate::specs::Lines::form_after))]
    fn form_after(&mut self, command: Command) -> Option<Form>
        ensures { Takes (form_after command) self.old self.new result }
    {
        // One arm for two commands would tell them apart again; a function that takes `Form::Enter` or `Form::Alter` would
        // need clauses of its own, and be longer than the two arms.
        match command {
            Command::Plan => Some(Form::Plan(self.word(b')')?)),
            Command::Enter => {
                let (line, item) = self.entry()?;
                Some(Form::Enter(line, item))
            }
            Command::Alter => {
                let (line, item) = self.entry()?;
                Some(Form::Alter(line, item))
            }
            Command::Strike => Some(Form::Strike(self.word(b')')?)),
            Command::Date => {
                let (line, (point, bound, day)) = self.day()?;
                Some(Form::Date(line, point, bound, day))
            }
            Command::Clear => Some(Form::Clear(self.word(b')')?)),
        }
    }

    /// A whole line: a form between brackets, and the byte that ends the line.
    #[tactic(auto, unfolding(crate::specs::Lines::form_at))]
    pub(crate) fn form(&mut self) -> Option<Form>
        ensures { Takes form_at self.old self.new result }
    {
        self.byte(b'(')?;
        let command = self.word(b' ')?;
        let form = self.form_after(command)?;
        self.byte(b'\n')?;
        Some(form)
    }
}
