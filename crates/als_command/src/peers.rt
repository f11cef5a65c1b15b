use std::alloc::{AllocError, Global};

/// How many peers a command line may name.
const LIMIT: usize = 8;

/// The other nodes of a database that a command line names, in its order: each a folder, or an address.
#[derive(Clone, Copy)]
pub struct Peers<'a> {
    first: Option<&'a str>,
    second: Option<&'a str>,
    third: Option<&'a str>,
    fourth: Option<&'a str>,
    fifth: Option<&'a str>,
    sixth: Option<&'a str>,
    seventh: Option<&'a str>,
    eighth: Option<&'a str>,
}

impl<'a> Peers<'a> {
    /// These nodes. None: they are more than eight.
    pub(crate) fn of(names: &[&'a str]) -> Option<Peers<'a>> {
        if names.len() > LIMIT {
            return None;
        }
        Some(Peers {
            first: names.get(0).copied(),
            second: names.get(1).copied(),
            third: names.get(2).copied(),
            fourth: names.get(3).copied(),
            fifth: names.get(4).copied(),
            sixth: names.get(5).copied(),
            seventh: names.get(6).copied(),
            eighth: names.get(7).copied(),
        })
    }

    /// Their names.
    pub fn list(self, alloc: Global) -> Result<Vec<&'a str>, AllocError> {
        let mut named = Vec::new(alloc);
        add(&mut named, self.first)?;
        add(&mut named, self.second)?;
        add(&mut named, self.third)?;
        add(&mut named, self.fourth)?;
        add(&mut named, self.fifth)?;
        add(&mut named, self.sixth)?;
        add(&mut named, self.seventh)?;
        add(&mut named, self.eighth)?;
        Ok(named)
    }
}

/// One more name, where there is one.
fn add<'a>(named: &mut Vec<&'a str>, name: Option<&'a str>) -> Result<(), AllocError> {
    if let Some(name) = name {
        named.push(name)?;
    }
    Ok(())
}
