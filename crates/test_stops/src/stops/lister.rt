//! The images that a stop may leave of a small disk, all of them, from what its calls were.
//!
//! Nothing here knows how a disk in memory keeps its record.

use std::alloc::{AllocError, Global};

/// A call of a disk of one conventional and one sequential zone.
#[derive(Clone, Copy, Debug, PartialEq, Eq)]
pub enum Call {
    /// Writes sectors 0 and 1 of the conventional zone, each full of this byte.
    Write(u8),
    /// The same, but it fails, and puts sector 0 alone.
    FailedWrite(u8),
    /// Writes two sectors at the pointer of the sequential zone.
    Append(u8),
    /// The same, but it fails, and puts the first of them.
    FailedAppend(u8),
    /// Takes the pointer back.
    Reset,
    /// The same, but it fails, and does nothing.
    FailedReset,
    /// A flush that answers Ok.
    Flush,
    /// A flush that fails.
    FailedFlush,
}

/// What is looked at of an image: a byte of each sector.
#[derive(Clone, Copy, Debug, PartialEq, Eq)]
pub struct Small {
    /// Sectors 0 and 1 of the conventional zone.
    pub sectors: [u8; 2],
    /// The pointer of the sequential zone.
    pub pointer: usize,
    /// The sectors below the pointer, and zeros.
    pub held: [u8; 8],
}

#[derive(Clone, Copy)]
enum Event {
    First(u8),
    Second(u8),
    Next(u8),
    Clear,
}

impl Call {
    // What it was asked to do.
    fn asked(&self) -> [Option<Event>; 2] {
        match *self {
            Call::Write(byte) | Call::FailedWrite(byte) => {
                [Some(Event::First(byte)), Some(Event::Second(byte))]
            }
            Call::Append(byte) | Call::FailedAppend(byte) => {
                [Some(Event::Next(byte)), Some(Event::Next(byte))]
            }
            Call::Reset | Call::FailedReset => [Some(Event::Clear), None],
            Call::Flush | Call::FailedFlush => [None, None],
        }
    }

    // What it did.
    fn done(&self) -> [Option<Event>; 2] {
        match *self {
            Call::FailedWrite(byte) => [Some(Event::First(byte)), None],
            Call::FailedAppend(byte) => [Some(Event::Next(byte)), None],
            Call::FailedReset => [None, None],
            _ => self.asked(),
        }
    }
}

impl Small {
    const BLANK: Small = Small {
        sectors: [0; 2],
        pointer: 0,
        held: [0; 8],
    };

    fn apply(&mut self, event: Event) {
        match event {
            Event::First(byte) => self.sectors[0] = byte,
            Event::Second(byte) => self.sectors[1] = byte,
            Event::Next(byte) => {
                if let Some(sector) = self.held.get_mut(self.pointer) {
                    *sector = byte;
                }
                self.pointer = self.pointer.saturating_add(1);
            }
            Event::Clear => {
                self.pointer = 0;
                self.held = [0; 8];
            }
        }
    }
}

fn push_events(events: &mut Vec<Event>, made: [Option<Event>; 2]) -> Result<(), AllocError> {
    let [one, two] = made;
    if let Some(event) = one {
        events.push(event)?;
    }
    if let Some(event) = two {
        events.push(event)?;
    }
    Ok(())
}

// The values that the events put into sector 0, or into sector 1, behind the one at the flush.
fn values(
    alloc: Global,
    flushed: u8,
    events: &[Event],
    second: bool,
) -> Result<Vec<u8>, AllocError> {
    let mut values = vec![in alloc; flushed]?;
    for event in events {
        match *event {
            Event::First(byte) if !second => values.push(byte)?,
            Event::Second(byte) if second => values.push(byte)?,
            _ => {}
        }
    }
    Ok(values)
}

// The images with this sequential zone, one for each pair of values.
fn push_images(
    images: &mut Vec<Small>,
    zone: &Small,
    firsts: &[u8],
    seconds: &[u8],
) -> Result<(), AllocError> {
    for first in firsts {
        for second in seconds {
            images.push(Small {
                sectors: [*first, *second],
                pointer: zone.pointer,
                held: zone.held,
            })?;
        }
    }
    Ok(())
}

/// The images that a stop may leave when the first `stop` calls have returned and the next may be under
/// way: one for each choice of values and of events.
pub fn left(alloc: Global, calls: &[Call], stop: usize) -> Result<Vec<Small>, AllocError> {
    let mut flushed = Small::BLANK;
    let mut events = Vec::new(alloc);
    for call in calls.iter().take(stop) {
        if *call == Call::Flush {
            for event in &events {
                flushed.apply(*event);
            }
            events.clear();
        }
        push_events(&mut events, call.done())?;
    }
    if let Some(call) = calls.get(stop) {
        push_events(&mut events, call.asked())?;
    }
    let firsts = values(alloc, flushed.sectors[0], &events, false)?;
    let seconds = values(alloc, flushed.sectors[1], &events, true)?;
    let mut images = Vec::new(alloc);
    let mut zone = flushed;
    push_images(&mut images, &zone, &firsts, &seconds)?;
    for event in &events {
        if matches!(event, Event::Next(_) | Event::Clear) {
            zone.apply(*event);
            push_images(&mut images, &zone, &firsts, &seconds)?;
        }
    }
    Ok(images)
}
