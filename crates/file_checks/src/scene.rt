//! The actors of a scene.

use crate::closed::Closed;
use crate::step::{Step, faulty};
use crate::{disk, out, sink, tree};
use path_text::Abs;
use real_files::{RealOut, RealSink, RealTree};
use std::io;

#[derive(Drop)]
pub struct Scene<'a> {
    rt: &'a HostRuntime,
    tree: RealTree<&'a HostRuntime>,
    out: RealOut<&'a HostRuntime>,
    sink: RealSink<&'a HostRuntime>,
    closed: RealSink<Closed>,
}

impl<'a> Scene<'a> {
    pub fn new(rt: &'a HostRuntime) -> Scene<'a> {
        Scene {
            rt,
            tree: RealTree::new(rt),
            out: RealOut::new(rt),
            sink: RealSink::new(rt),
            closed: RealSink::new(Closed),
        }
    }

    /// What comes of a line.
    pub fn answer(&mut self, folder: &Abs, step: Step<'_>) -> io::Result<String> {
        let alloc = self.rt.alloc();
        match step.actor {
            "tree" => tree::answer(alloc, &mut self.tree, folder, step),
            "out" => out::answer(alloc, &mut self.out, folder, step),
            "sink" => sink::answer(alloc, &mut self.sink, step),
            "closed" => sink::answer(alloc, &mut self.closed, step),
            "disk" => disk::answer(self.rt, folder, step),
            _ => Err(faulty()),
        }
    }
}
