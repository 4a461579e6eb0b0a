//! Runs, and what they told.

use crate::fault::Broken;
use crate::lines::with_line_feeds;
use crate::steps::Order;
use std::alloc::{AllocError, Global};
use std::mem;
use zd_admin::admin;
use zd_base::Status;
use zd_memdisk::{Fail, MemDisk};
use zd_ports::{MemSink, MemSource};
use zd_replay::replay_alone;

/// What the next run is given besides its script.
#[derive(Drop)]
pub struct Orders {
    fails: Vec<Fail>,
    source_fails: Vec<u64>,
    sink_fails: Vec<u64>,
    most: usize,
    words: Option<Vec<String>>,
}

impl Orders {
    /// Nothing fails, and the words are `img s`.
    pub fn none(alloc: Global) -> Orders {
        Orders {
            fails: Vec::new(alloc),
            source_fails: Vec::new(alloc),
            sink_fails: Vec::new(alloc),
            most: 4096,
            words: None,
        }
    }

    /// Takes in one more.
    pub fn add(&mut self, order: Order) -> Result<(), AllocError> {
        match order {
            Order::FailCall(fail) => self.fails.push(fail)?,
            Order::FailSource(nth) => self.source_fails.push(nth)?,
            Order::FailSink(nth) => self.sink_fails.push(nth)?,
            Order::Gives(most) => self.most = most,
            Order::Words(words) => self.words = Some(words),
        }
        Ok(())
    }
}

/// What a run told: its output and status, how many writing calls the disk had had before, and how
/// many writing and reading calls the run made.
#[derive(Drop)]
pub struct Told {
    /// What it printed.
    pub output: Vec<u8>,
    /// How it ended.
    pub status: Status,
    /// The writing calls before it.
    pub before: u64,
    /// Its writing calls.
    pub calls: u64,
    /// Its reading calls.
    pub reads: u64,
}

impl Told {
    /// Of no run.
    pub fn nothing(alloc: Global) -> Told {
        Told {
            output: Vec::new(alloc),
            status: Status(255),
            before: 0,
            calls: 0,
            reads: 0,
        }
    }
}

/// The words of a run that names an image and a script.
fn image_and_script(alloc: Global) -> Result<Vec<String>, AllocError> {
    let mut words = Vec::new(alloc);
    words.push(String::from_str(alloc, "img")?)?;
    words.push(String::from_str(alloc, "s")?)?;
    Ok(words)
}

/// Runs a script over the disk, which comes back with what the run told.
pub fn replay(
    alloc: Global,
    mut disk: MemDisk,
    orders: &mut Orders,
    script: &str,
) -> Result<(MemDisk, Told), Broken> {
    let Orders {
        fails,
        source_fails,
        sink_fails,
        most,
        words,
    } = mem::replace(orders, Orders::none(alloc));
    let words = match words {
        Some(words) => words,
        None => image_and_script(alloc)?,
    };
    if !fails.is_empty() {
        disk.fail_at(fails);
    }
    let mut source = MemSource::new(with_line_feeds(alloc, script)?, most.max(1), source_fails);
    let mut sink = MemSink::new(alloc, sink_fails);
    let (before, reads) = (disk.calls(), disk.read_calls());
    let (status, disk) = replay_alone(alloc, &words, disk, &mut source, &mut sink);
    let told = Told {
        output: sink.held().to_vec(alloc)?,
        status,
        before,
        calls: disk.calls().saturating_sub(before),
        reads: disk.read_calls().saturating_sub(reads),
    };
    Ok((disk, told))
}

/// Runs a command of administration over the disk.
pub fn administer(
    alloc: Global,
    mut disk: MemDisk,
    orders: &mut Orders,
    words: &[String],
) -> Result<(MemDisk, Told), Broken> {
    let Orders {
        fails,
        sink_fails,
        ..
    } = mem::replace(orders, Orders::none(alloc));
    if !fails.is_empty() {
        disk.fail_at(fails);
    }
    let mut sink = MemSink::new(alloc, sink_fails);
    let (before, reads) = (disk.calls(), disk.read_calls());
    let (status, disk) = admin(alloc, words, disk, &mut sink);
    let told = Told {
        output: sink.held().to_vec(alloc)?,
        status,
        before,
        calls: disk.calls().saturating_sub(before),
        reads: disk.read_calls().saturating_sub(reads),
    };
    Ok((disk, told))
}
