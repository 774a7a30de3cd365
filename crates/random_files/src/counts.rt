// What is said of a file, and what is counted.
use crate::lists::Refused;
use std::fmt;

// What the planner and the search agree on: so many slots of a table, or a refusal.
#[derive(Clone, Copy)]
pub(crate) enum Right {
    Table(u8),
    Refused(Refused),
}

// What is wrong: the answer or a buffer differs, or the check refuses the table.
#[derive(Clone, Copy)]
pub(crate) enum Wrong {
    Differs,
    Unchecked,
}

// How many files there are of which each is said, the slots of all tables, and how many answers would be others without tag 9.
#[derive(Clone, Copy, Default)]
pub(crate) struct Counts {
    tables: u64,
    circle: u64,
    no_list: u64,
    wide: u64,
    slots: u64,
    differ: u64,
    unchecked: u64,
    changed: u64,
}

impl Counts {
    // Counts a file of which this is said.
    pub(crate) fn count(&mut self, said: Result<Right, Wrong>) {
        match said {
            Ok(Right::Table(slots)) => self.count_table(slots),
            Ok(Right::Refused(refused)) => self.count_refused(refused),
            Err(Wrong::Differs) => self.differ = self.differ.saturating_add(1),
            Err(Wrong::Unchecked) => self.unchecked = self.unchecked.saturating_add(1),
        }
    }

    // Counts a table with so many slots.
    fn count_table(&mut self, slots: u8) {
        self.tables = self.tables.saturating_add(1);
        self.slots = self.slots.saturating_add(u64::from(slots));
    }

    // Counts a refusal.
    fn count_refused(&mut self, refused: Refused) {
        match refused {
            Refused::Circle => self.circle = self.circle.saturating_add(1),
            Refused::Wide => self.wide = self.wide.saturating_add(1),
            Refused::NoList => self.no_list = self.no_list.saturating_add(1),
        }
    }

    // Counts an answer that would be another without tag 9.
    pub(crate) fn count_changed(&mut self) {
        self.changed = self.changed.saturating_add(1);
    }
}

impl fmt::Display for Counts {
    fn fmt<W: fmt::Write>(&self, f: &mut fmt::Formatter<W>) -> fmt::Result {
        writeln!(f, "tables {}", self.tables)?;
        writeln!(f, "refused 11 {}", self.circle)?;
        writeln!(f, "refused 13 {}", self.no_list)?;
        writeln!(f, "refused 12 with extra jobs {}", self.wide)?;
        writeln!(f, "sum of slots {}", self.slots)?;
        writeln!(f, "differ {}", self.differ)?;
        writeln!(f, "check refused {}", self.unchecked)?;
        write!(f, "changed by tag 9 {}", self.changed)
    }
}
