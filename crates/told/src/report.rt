//! What is said of a trial.
use card_type::ChatKey;
use kit::{Id, Memory};
use scripts::add_number;
use std::alloc::Global;

/// The report of a trial: how many changes it made, how many pages it compared after them, and how many of these differed.
#[derive(Drop)]
pub struct Report {
    alloc: Global,
    said: Vec<u8>,
    changes: u64,
    pages: u64,
    differing: u64,
}

impl Report {
    /// Nothing was made and nothing compared.
    pub fn new(alloc: Global) -> Report {
        Report {
            alloc,
            said: Vec::new(alloc),
            changes: 0,
            pages: 0,
            differing: 0,
        }
    }

    /// Counts a change.
    pub fn add_change(&mut self) {
        self.changes = self.changes.saturating_add(1);
    }

    /// Says a number of something.
    pub fn add_line(&mut self, number: u64, what: &[u8]) -> Result<(), Memory> {
        add_number(&mut self.said, self.alloc, number)?;
        self.said.extend_from_slice(what)?;
        Ok(())
    }

    /// Counts a page. The first one that differs is named.
    pub fn add_page(&mut self, alike: bool, kind: &[u8], name: &[u8]) -> Result<(), Memory> {
        self.pages = self.pages.saturating_add(1);
        if alike {
            return Ok(());
        }
        self.differing = self.differing.saturating_add(1);
        if self.differing == 1 {
            self.said.extend_from_slice(kind)?;
            self.said.extend_from_slice(name)?;
            self.said
                .extend_from_slice(b" differs after so many changes: ")?;
            let changes = self.changes;
            self.add_line(changes, b"\n")?;
        }
        Ok(())
    }

    /// Counts the page of a chat.
    pub fn add_chat(&mut self, alike: bool, key: &ChatKey) -> Result<(), Memory> {
        let name = key.text(self.alloc)?;
        self.add_page(alike, b"chat ", name.as_str().as_bytes())
    }

    /// Counts the updates of an app.
    pub fn add_updates(&mut self, alike: bool, id: &Id) -> Result<(), Memory> {
        self.add_page(alike, b"updates ", id.bytes())
    }

    /// Says the counts.
    fn add_counts(&mut self) -> Result<(), Memory> {
        let (changes, pages, differing) = (self.changes, self.pages, self.differing);
        self.add_line(changes, b" changes, ")?;
        self.add_line(pages, b" pages, ")?;
        if differing == 0 {
            self.said.extend_from_slice(b"all alike\n")?;
        } else {
            self.add_line(differing, b" differ\n")?;
        }
        Ok(())
    }

    /// Adds all that is said, with the counts at its end.
    pub fn add_to(&mut self, said: &mut Vec<u8>) -> Result<(), Memory> {
        self.add_counts()?;
        said.extend_from_slice(&self.said)?;
        Ok(())
    }
}
