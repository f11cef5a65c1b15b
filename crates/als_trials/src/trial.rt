use crate::trouble::Trouble;
use als_script::is_command;
use std::alloc::Global;

/// A line of a script, and the lines that it has to print.
#[derive(Drop)]
pub struct Said<'a> {
    pub line: &'a str,
    pub printed: Vec<&'a str>,
}

impl<'a> Said<'a> {
    /// Whether this output is what it has to print.
    pub fn is_printed(&self, output: &str) -> bool {
        let mut lines = output.lines();
        for wanted in self.printed.iter() {
            if lines.next() != Some(*wanted) {
                return false;
            }
        }
        lines.next().is_none()
    }
}

/// A script with what each line of it prints. Its first line is the world's.
#[derive(Drop)]
pub struct Trial<'a> {
    pub name: &'a str,
    pub said: Vec<Said<'a>>,
}

impl<'a> Trial<'a> {
    /// The trial of a section, behind lines that come first in each trial of its file.
    pub fn read(alloc: Global, front: &'a str, section: &'a str) -> Result<Trial<'a>, Trouble> {
        let (name, body) = section.split_once('\n').ok_or(Trouble::NoTrial)?;
        let mut trial = Trial {
            name,
            said: Vec::new(alloc),
        };
        trial.take(alloc, front)?;
        trial.take(alloc, body)?;
        Ok(trial)
    }

    /// The world's line.
    pub fn world(&self) -> Result<&'a str, Trouble> {
        Ok(self.said.first().ok_or(Trouble::NoTrial)?.line)
    }

    fn take(&mut self, alloc: Global, text: &'a str) -> Result<(), Trouble> {
        for line in text.lines() {
            match line.strip_prefix("> ") {
                Some(printed) => {
                    let said = self.said.last_mut().ok_or(Trouble::NoTrial)?;
                    said.printed.push(printed)?;
                }
                None if is_command(line.as_bytes()) => self.said.push(Said {
                    line,
                    printed: Vec::new(alloc),
                })?,
                None => {}
            }
        }
        Ok(())
    }
}
