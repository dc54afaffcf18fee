//! The capture of a simulation, written while it runs.

use ospf_views::records::{Recorder, write_header};
use ospf_world::World;
use std::alloc::{AllocError, Global};
use std::fs;
use std::io::Write;
use std::rt::Runtime;

// Blocks of this many bytes are written.
const BLOCK: usize = 1 << 16;

/// Writes what the routers of a simulation send into a capture file while the simulation runs, so
/// that an interrupted simulation leaves a readable file. The packets have the times that
/// `ospf_views::records::capture` gives. They are written in blocks, and the rest at the end of a
/// line. The file is created when something is first sent. If it cannot be written, nothing more is
/// written and no error is reported: the capture of the whole simulation, which replaces it, is
/// written at the end.
#[derive(Drop)]
pub struct Recording<R: Runtime + Drop> {
    rt: R,
    alloc: Global,
    // No file is wanted, or it cannot be written.
    name: Option<String>,
    file: Option<R::File>,
    block: Vec<u8>,
    // What is written or in the block.
    recorder: Recorder,
}

impl<R: Runtime + Drop> Recording<R> {
    /// Nothing was sent yet. The file will have this name, if one is given.
    pub fn new(rt: R, alloc: Global, name: Option<String>) -> Recording<R> {
        Recording {
            rt,
            alloc,
            name,
            file: None,
            block: Vec::new(alloc),
            recorder: Recorder::new(alloc),
        }
    }

    /// An event has happened: this is the world after it.
    pub fn came(&mut self, world: &World) {
        if self.name.is_none() {
            return;
        }
        if self.add_sent(world).is_err() || (self.block.len() >= BLOCK && !self.write_block()) {
            self.name = None;
        }
    }

    /// A line is over: what is left is written.
    pub fn ends_line(&mut self) {
        if self.name.is_some() && !self.block.is_empty() && !self.write_block() {
            self.name = None;
        }
    }

    // Adds what was sent since the last call, and the file header before the first packet.
    fn add_sent(&mut self, world: &World) -> Result<(), AllocError> {
        if self.recorder.datagrams() == 0 && !world.datagrams().is_empty() {
            write_header(&mut self.block)?;
        }
        self.recorder.add_sent(&mut self.block, world)
    }

    // Writes the block into the file and creates the file first if needed; returns whether that
    // succeeded.
    fn write_block(&mut self) -> bool {
        if self.file.is_none() {
            let Some(name) = &self.name else {
                return false;
            };
            match fs::File::create(&self.rt, name) {
                Ok(file) => self.file = Some(file),
                Err(_) => return false,
            }
        }
        let Some(file) = &mut self.file else {
            return false;
        };
        let is_written = file.write_all(&self.block).is_ok();
        self.block = Vec::new(self.alloc);
        is_written
    }
}
