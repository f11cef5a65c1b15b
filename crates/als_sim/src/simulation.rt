use crate::disk::Disk;
use crate::failure::Failure;
use crate::fuses::Fuses;
use crate::left::Left;
use crate::misplaced::Misplaced;
use crate::stepping::{end_of, lease_step, one_event, one_step, status_of, step_of};
use crate::{combined, printing, showing};
use als_engine::{CONTROL_BLOCKS, Config, Disks, Fault, State};
use als_fault::FaultKind;
use als_record::Key;
use als_script::{CombinedLine, CrashLine, Line, ReadLine, ShowLine, StepLine, WorldLine};
use als_text::LogText;
use als_world::{World, WorldStep};
use std::alloc::Global;
use std::io;
use std::io::Write;
use std::sync::Wait;

/// The most worker slots.
const WORKER_LIMIT: u64 = 8;

/// A standby in a world, what makes its devices fail, and the primary's log text of the record
/// lines so far.
pub struct Simulation {
    alloc: Global,
    world: World<Disk>,
    fuses: Fuses,
    text: LogText,
    /// Blocks of the three devices together.
    blocks: u64,
    /// The first feed that began at a wrong place.
    misplaced: Option<Misplaced>,
}

// Written out: a derived drop is proved part by part wherever a value is dropped, this one only
// here.
impl Drop for Simulation {
    fn drop(self) {
        let Simulation {
            alloc: _,
            world,
            fuses,
            text,
            blocks: _,
            misplaced: _,
        } = self;
        drop(world);
        drop(fuses);
        drop(text);
    }
}

impl Simulation {
    /// The simulation that a script's first line begins. The inner error is a refused world.
    pub fn begin<R: Wait>(
        alloc: Global,
        rt: &R,
        number: u64,
        line: &str,
    ) -> Result<Result<Simulation, Fault>, Failure> {
        let line = WorldLine::parse(line).ok_or(Failure::BadLine(number))?;
        let fuses = Fuses::new(alloc)?;
        let disks = fuses.devices(alloc, &line)?;
        let blocks = line
            .log
            .saturating_add(CONTROL_BLOCKS)
            .saturating_add(line.pages);
        let config = config(line);
        match world(alloc, rt, line, disks, config) {
            Ok(world) => {
                let text = LogText::new(alloc, pages_of(&world))?;
                Ok(Ok(Simulation {
                    alloc,
                    world,
                    fuses,
                    text,
                    blocks,
                    misplaced: None,
                }))
            }
            Err(fault) => Ok(Err(fault)),
        }
    }

    /// Does what a line says, of this number in the script, and prints what it answers.
    pub fn take<R: Wait, W: Write>(
        self,
        rt: &R,
        number: u64,
        line: &str,
        output: &mut W,
    ) -> Result<Simulation, Failure> {
        let mut simulation = self;
        match Line::parse(line).ok_or(Failure::BadLine(number))? {
            Line::Record(record) => simulation.text.push(&record)?,
            Line::Step(step) => return simulation.step(rt, number, step, output),
            Line::Lease(lease) => return simulation.world_step(rt, &lease_step(lease), output),
            Line::Read(read) => return simulation.world_step(rt, &read_step(read), output),
            Line::Crash(crash) => return simulation.crash(rt, crash, output),
            Line::Combined(combined) => return simulation.combined(rt, combined, output),
            Line::Fail(fail) => {
                simulation.fuses.set(fail);
                writeln!(output, "ok")?;
            }
            Line::Show(show) => return simulation.show(number, show, output),
        }
        Ok(simulation)
    }

    /// What is left of its feeds.
    fn left(&self) -> Left {
        let (end, partial, kept) = match status_of(&self.world) {
            None => (0, 0, None),
            Some(status) => (status.end.0, status.partial as u64, kept_in(status.state)),
        };
        Left {
            misplaced: self.misplaced,
            kept,
            end,
            partial,
        }
    }

    /// Ends the simulation, and answers what is left of its feeds. It frees what readers looked at.
    pub fn end<R: Wait>(self, rt: &R) -> Left {
        let left = self.left();
        let Simulation {
            alloc: _,
            world,
            fuses,
            text,
            blocks: _,
            misplaced: _,
        } = self;
        drop(world.into_disks(rt));
        drop(fuses);
        drop(text);
        left
    }

    fn step<R: Wait, W: Write>(
        self,
        rt: &R,
        number: u64,
        line: StepLine,
        output: &mut W,
    ) -> Result<Simulation, Failure> {
        let Simulation {
            alloc,
            world,
            fuses,
            text,
            blocks,
            misplaced,
        } = self;
        let Some(step) = step_of(line, text.bytes()) else {
            return Err(Failure::BadLine(number));
        };
        let before = status_of(&world);
        let (world, reply) = one_event(alloc, rt, world, &step);
        printing::reply(output, &reply, end_of(&world))?;
        let misplaced = misplaced.or(Misplaced::of(number, &line, before, status_of(&world)));
        Ok(Simulation {
            alloc,
            world,
            fuses,
            text,
            blocks,
            misplaced,
        })
    }

    fn crash<R: Wait, W: Write>(
        self,
        rt: &R,
        line: CrashLine,
        output: &mut W,
    ) -> Result<Simulation, Failure> {
        let picks = line.picks(self.alloc, self.blocks as usize)?;
        self.world_step(rt, &WorldStep::Crash(picks.as_slice()), output)
    }

    /// A step that is no event of the engine.
    fn world_step<R: Wait, W: Write>(
        self,
        rt: &R,
        step: &WorldStep,
        output: &mut W,
    ) -> Result<Simulation, Failure> {
        let Simulation {
            alloc,
            world,
            fuses,
            text,
            blocks,
            misplaced,
        } = self;
        let (world, reply) = one_step(alloc, rt, world, step);
        printing::world_reply(output, &reply)?;
        Ok(Simulation {
            alloc,
            world,
            fuses,
            text,
            blocks,
            misplaced,
        })
    }

    fn combined<R: Wait, W: Write>(
        self,
        rt: &R,
        line: CombinedLine,
        output: &mut W,
    ) -> Result<Simulation, Failure> {
        let Simulation {
            alloc,
            world,
            fuses,
            text,
            blocks,
            misplaced,
        } = self;
        let (world, reply) = match line {
            CombinedLine::Drain => combined::drain(alloc, rt, world),
            CombinedLine::Force => combined::force(alloc, rt, world),
            CombinedLine::Takeover => combined::takeover(alloc, rt, world),
        };
        let end = end_of(&world);
        match line {
            CombinedLine::Takeover => printing::taken_over(output, &reply, end)?,
            CombinedLine::Drain | CombinedLine::Force => printing::reply(output, &reply, end)?,
        }
        Ok(Simulation {
            alloc,
            world,
            fuses,
            text,
            blocks,
            misplaced,
        })
    }

    fn show<W: Write>(
        self,
        number: u64,
        line: ShowLine,
        output: &mut W,
    ) -> Result<Simulation, Failure> {
        let Simulation {
            alloc,
            mut world,
            fuses,
            text,
            blocks,
            misplaced,
        } = self;
        if let ShowLine::Page { page } = line {
            if u64::from(page) >= world.config().pages {
                return Err(Failure::BadLine(number));
            }
        }
        match world.engine() {
            None => printing::refused(output, Fault::Stopped)?,
            Some(engine) => match line {
                ShowLine::Status => showing::status(output, engine)?,
                ShowLine::Table => showing::table(output, engine.table())?,
                ShowLine::Dirty => showing::dirty(output, engine)?,
                ShowLine::Page { page } => {
                    listed(output, showing::page(alloc, &mut world, page))?
                }
                ShowLine::Epochs => showing::epochs(output, engine.history())?,
                ShowLine::Database => listed(output, showing::database(alloc, &mut world))?,
                ShowLine::Log { from } => listed(output, showing::log(alloc, &mut world, from))?,
            },
        }
        Ok(Simulation {
            alloc,
            world,
            fuses,
            text,
            blocks,
            misplaced,
        })
    }
}

/// The fault that a standby in this state keeps.
fn kept_in(state: State) -> Option<FaultKind> {
    match state {
        State::Refusing { fault, .. } => Some(fault.kind()),
        _ => None,
    }
}

/// What was gathered, or the refusal alone.
fn listed<W: Write>(output: &mut W, listing: Result<String, Fault>) -> io::Result<()> {
    match listing {
        Ok(listing) => output.write_all(listing.as_bytes()),
        Err(fault) => printing::refused(output, fault),
    }
}

/// With what the standby of a world line is made.
fn config(line: WorldLine) -> Config {
    Config {
        pages: line.pages,
        frames: line.frames,
        pending: line.pending,
        readers: 1,
    }
}

/// The world of a world line, over devices that it formats.
fn world<R: Wait>(
    alloc: Global,
    rt: &R,
    line: WorldLine,
    disks: Disks<Disk>,
    config: Config,
) -> Result<World<Disk>, Fault> {
    if line.workers == 0 || line.workers > WORKER_LIMIT {
        return Err(Fault::BadConfig);
    }
    match World::format(alloc, rt, disks, config, line.workers as usize) {
        Ok(world) => Ok(world),
        Err(refused) => Err(refused.fault),
    }
}

/// The pages of a world's database; 0 while the world is down.
fn pages_of(world: &World<Disk>) -> u32 {
    match world.engine() {
        Some(engine) => engine.pages(),
        None => 0,
    }
}

/// The step of a read line.
fn read_step(line: ReadLine) -> WorldStep<'static> {
    WorldStep::Read(Key {
        page: line.page,
        slot: line.slot,
    })
}
