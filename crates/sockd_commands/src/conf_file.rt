//! Configurations from files.
ghost use Rattle.std.specs.Prelude.{◌≡◌, ◌≤◌};
ghost use Rattle.sockd_commands.specs.ConfFile.{OnConfRead};

use conf_model::{ConfFault, ConfKind, read_config};
use conf_types::Config;
use net_ends::{Store, Stored};
use std::alloc::Global;

/// The most bytes that a configuration may have.
const LONGEST: usize = 1_048_576;

/// What reading a configuration file came to.
#[derive(Drop)]
pub enum ConfRead {
    Read(Config),
    /// The file was read and is no configuration. Its kind is never want of memory.
    Refused(ConfFault),
    /// The file can't be read.
    Failed,
    Memory,
}

/// Reads a file as a configuration.
pub fn read_conf<F: Store>(alloc: Global, files: &mut F, name: &str) -> ConfRead
    ensures found { OnConfRead (F.files files.old) name.now (F.faults files.old) (F.faults files.new) result }
    ensures kept { F.files files.new ≡ F.files files.old }
    ensures later { F.faults files.old ≤ F.faults files.new }
{
    let text = match files.read_file(alloc, name, LONGEST) {
        Stored::Read(text) => text,
        Stored::Failed => return ConfRead::Failed,
        Stored::Memory => return ConfRead::Memory,
    };
    match read_config(alloc, text.as_slice()) {
        Ok(config) => ConfRead::Read(config),
        Err(fault) => match fault.kind {
            ConfKind::Memory => ConfRead::Memory,
            _ => ConfRead::Refused(fault),
        },
    }
}
