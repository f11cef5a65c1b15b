use crate::trouble::Trouble;
use als_engine::Fault;
use als_sim::Simulation;
use std::alloc::Global;
use std::str;
use std::sync::Wait;

/// Runs the lines of a script one by one.
pub struct Driver<'r, R: Wait> {
    rt: &'r R,
    /// None: a line had no memory for what it prints.
    simulation: Option<Simulation>,
    output: Vec<u8>,
}

// Written out: a derived drop is proved part by part wherever a value is dropped, this one only
// here.
impl<R: Wait> Drop for Driver<'_, R> {
    fn drop(self) {
        let Driver {
            rt: _,
            simulation,
            output,
        } = self;
        drop(simulation);
        drop(output);
    }
}

impl<'r, R: Wait> Driver<'r, R> {
    /// A standby in the world that a script's first line describes. Memory: an allocation failed, of
    /// the standby or of a block of its devices.
    pub fn begin(alloc: Global, rt: &'r R, world: &str) -> Result<Driver<'r, R>, Trouble> {
        match Simulation::begin(alloc, rt, 1, world)? {
            Ok(simulation) => Ok(Driver {
                rt,
                simulation: Some(simulation),
                output: Vec::new(alloc),
            }),
            Err(Fault::Memory | Fault::Device) => Err(Trouble::Memory),
            Err(_) => Err(Trouble::NoTrial),
        }
    }

    /// What a line prints.
    pub fn say(&mut self, line: &str) -> Result<&str, Trouble> {
        let simulation = self.simulation.take().ok_or(Trouble::NoTrial)?;
        self.output.clear();
        self.simulation = Some(simulation.take(self.rt, 2, line, &mut self.output)?);
        Ok(str::from_utf8(self.output.as_slice())?)
    }
    /// Ends it, and frees what readers looked at.
    pub fn end(self) {
        let Driver {
            rt,
            simulation,
            output,
        } = self;
        if let Some(simulation) = simulation {
            let _ = simulation.end(rt);
        }
        drop(output);
    }
}
