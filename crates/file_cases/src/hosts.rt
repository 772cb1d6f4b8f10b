//! The tests of `host_model`: the objects in memory.

mod clocks;
mod files;
mod links;
mod sources;
mod spawners;
