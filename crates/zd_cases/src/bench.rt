//! The bench on which cases are run.

use crate::asks::{expect, kept_copy};
use crate::builds::change;
use crate::fault::Broken;
use crate::places::copy;
use crate::reading::{Case, CaseLine, parse_cases};
use crate::runs::{Orders, Told, administer, replay};
use crate::steps::{Step, Stop};
use crate::stops::stopped;
use std::alloc::{AllocError, Global};
use std::mem;
use zd_base::Geometry;
use zd_memdisk::MemDisk;

/// An image that was kept, and its name.
#[derive(Drop)]
pub struct Kept {
    /// Its name.
    pub name: String,
    /// The disk, which reads as the one that was kept.
    pub disk: MemDisk,
}

/// A disk from which a stop was taken, and the run in which.
#[derive(Drop)]
struct Aside {
    disk: MemDisk,
    told: Told,
}

/// How many cases were run and how many of them failed, with a line for each of these.
#[derive(Drop)]
pub struct Tally {
    /// All cases.
    pub cases: u64,
    /// Those that failed, and the texts that can't be read.
    pub failed: u64,
    /// A line for each that failed: its text, its line and its name, and what was wrong.
    pub lines: String,
}

impl Tally {
    /// Of no cases.
    pub fn new(alloc: Global) -> Tally {
        Tally {
            cases: 0,
            failed: 0,
            lines: String::new(alloc),
        }
    }

    fn add_failure(&mut self, line: &str) -> Result<(), AllocError> {
        self.failed = self.failed.saturating_add(1);
        self.lines.push_str(line)?;
        self.lines.push('\n')
    }
}

/// The line of a case that failed, and why.
#[derive(Drop)]
struct Failure {
    number: u32,
    broken: Broken,
}

/// A bench on which cases are run one after the other. Images that a case keeps stay for those that
/// follow.
#[derive(Drop)]
pub struct Bench {
    kept: Vec<Kept>,
    orders: Orders,
    told: Told,
    aside: Option<Aside>,
}

impl Bench {
    /// A bench that keeps no image.
    pub fn new(alloc: Global) -> Bench {
        Bench {
            kept: Vec::new(alloc),
            orders: Orders::none(alloc),
            told: Told::nothing(alloc),
            aside: None,
        }
    }

    /// Reads a text and runs its cases, and counts them. The name is that of the text.
    pub fn run_text(
        &mut self,
        alloc: Global,
        name: &str,
        text: &str,
        tally: &mut Tally,
    ) -> Result<(), AllocError> {
        let cases = match parse_cases(alloc, text) {
            Ok(cases) => cases,
            Err(fault) => {
                let (line, why) = (fault.line, fault.why);
                let told = format!(in alloc; "{name} line {line}: {why}")?;
                return tally.add_failure(told.as_str());
            }
        };
        for case in cases {
            tally.cases = tally.cases.saturating_add(1);
            let Case {
                name: of_case,
                lines,
            } = case;
            if let Err(Failure { number, broken }) = self.run_case(alloc, lines) {
                let told = format!(in alloc; "{name} line {number}, {of_case}: {broken}")?;
                tally.add_failure(told.as_str())?;
            }
        }
        Ok(())
    }

    fn run_case(&mut self, alloc: Global, lines: Vec<CaseLine>) -> Result<(), Failure> {
        self.orders = Orders::none(alloc);
        self.told = Told::nothing(alloc);
        self.aside = None;
        let mut disk = match first_disk(alloc) {
            Ok(disk) => disk,
            Err(broken) => return Err(Failure { number: 0, broken }),
        };
        for CaseLine { number, step } in lines {
            disk = match self.take_step(alloc, disk, step) {
                Ok(disk) => disk,
                Err(broken) => return Err(Failure { number, broken }),
            };
        }
        Ok(())
    }

    fn take_step(&mut self, alloc: Global, disk: MemDisk, step: Step) -> Result<MemDisk, Broken> {
        match step {
            Step::On(name) => kept_copy(alloc, &self.kept, name.as_str()),
            Step::Keep(name) => self.keep_copy(alloc, disk, name.as_str()),
            Step::Build(wanted) => change(alloc, disk, &wanted),
            Step::Order(order) => {
                self.orders.add(order)?;
                Ok(disk)
            }
            Step::Run(script) => {
                let ran = replay(alloc, disk, &mut self.orders, script.as_str())?;
                Ok(self.took(ran))
            }
            Step::Admin(words) => {
                let ran = administer(alloc, disk, &mut self.orders, &words)?;
                Ok(self.took(ran))
            }
            Step::Ask(asked) => {
                expect(alloc, &disk, &self.told, &self.kept, &asked)?;
                Ok(disk)
            }
            Step::Stop(stop) => self.take_stop(alloc, disk, &stop),
            Step::Back => self.back(),
        }
    }

    fn took(&mut self, (disk, told): (MemDisk, Told)) -> MemDisk {
        self.told = told;
        disk
    }

    fn keep_copy(&mut self, alloc: Global, disk: MemDisk, name: &str) -> Result<MemDisk, Broken> {
        self.kept.retain(|image| image.name.as_str() != name);
        self.kept.push(Kept {
            name: String::from_str(alloc, name)?,
            disk: copy(alloc, &disk)?,
        })?;
        Ok(disk)
    }

    fn take_stop(&mut self, alloc: Global, disk: MemDisk, stop: &Stop) -> Result<MemDisk, Broken> {
        let image = stopped(alloc, &disk, &self.told, stop)?;
        let told = mem::replace(&mut self.told, Told::nothing(alloc));
        self.aside = Some(Aside { disk, told });
        Ok(image)
    }

    fn back(&mut self) -> Result<MemDisk, Broken> {
        match self.aside.take() {
            Some(Aside { disk, told }) => {
                self.told = told;
                Ok(disk)
            }
            None => Err(Broken::NoBack),
        }
    }
}

/// The disk on which a case begins: 6 conventional and 6 sequential zones of 16 blocks.
fn first_disk(alloc: Global) -> Result<MemDisk, Broken> {
    let Ok(geometry) = Geometry::new(16, 6, 6) else {
        return Err(Broken::Place);
    };
    MemDisk::blank(alloc, geometry).ok().ok_or(Broken::Memory)
}
